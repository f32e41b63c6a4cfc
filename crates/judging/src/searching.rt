// The ordered search: one eligible operation is taken, then what is eligible next is asked, lowest number first; each taking is one try.
ghost use Rattle.std.specs.Prelude.{◌≡◌, ◌+◌, ◌-◌, ◌≤◌, ◌<◌, true};
ghost use Rattle.judging.specs.History.{count_in, first_in, last_in, operations_in};
ghost use Rattle.judging.specs.Search.{judged_of};
ghost use Rattle.judging.specs.Place.{Clear, Ready, is_eligible, took};
ghost use Rattle.judging.specs.Judged.{said_of, said_none, said_at, searched_at, asked_at};

use crate::placing::no_bytes;
use crate::reading::History;
use crate::standing::Standing;
use crate::{Judgement, Place, Verdict};

// A verdict with no order.
fn say(verdict: Verdict, tries: u32) -> Judgement
    ensures { result ≡ said_none verdict tries }
{
    Judgement {
        verdict,
        tries,
        count: 0,
        order: no_bytes(),
    }
}

// Lawful, with the order that shows it.
fn say_lawful(x: &Place, tries: u32) -> Judgement
    ensures { result ≡ said_at x.now tries }
{
    let order = x.order;
    Judgement {
        verdict: Verdict::Lawful,
        tries,
        count: x.count,
        order,
    }
}

impl Standing<'_> {
    // Asks which of the candidates from i on is eligible.
    #[cycle(carry_out_choose)]
    fn choose(&self, left: usize, i: usize, tries: u32) -> Judgement
        requires { (i ≤ count_in self.now.history.bytes.now) × (tries ≤ 1000000) × Ready self.now.history.bytes.now left self.now.place }
        ensures same { result ≡ said_of (asked_at self.now.history.bytes.now left (count_in self.now.history.bytes.now - i) self.now.place i tries) }
        ensures bounded { result.tries ≤ 1000000 }
    {
        if left == 0 {
            return say(Verdict::Unlawful, tries);
        }
        let Some(j) = self.next_eligible(i) else {
            return say(Verdict::Unlawful, tries);
        };
        if tries == 1000000 {
            return say(Verdict::Undecided, tries);
        }
        let r = self.carry_out(left, j, tries);
        match r.verdict {
            Verdict::Unlawful => self.choose(left, j + 1, r.tries),
            Verdict::Lawful | Verdict::Undecided => r,
        }
    }

    // Takes operation i and asks what is eligible next.
    #[cycle(carry_out_choose)]
    fn carry_out(&self, left: usize, i: usize, tries: u32) -> Judgement
        requires { (i < count_in self.now.history.bytes.now) × (tries < 1000000) × (0 < left) × Ready self.now.history.bytes.now left self.now.place × (is_eligible self.now.history.bytes.now self.now.place i ≡ true) }
        ensures same { result ≡ said_of (searched_at self.now.history.bytes.now (left - 1) (took self.now.history.bytes.now self.now.place i) (tries + 1)) }
        ensures bounded { result.tries ≤ 1000000 }
    {
        let next = Standing {
            history: self.history,
            place: self.take(i),
        };
        if next.is_finished() {
            return say_lawful(&next.place, tries + 1);
        }
        next.choose(left - 1, 0, tries + 1)
    }
}

impl History<'_> {
    // The search from its beginning.
    pub fn judged(self) -> Judgement
        requires { Clear self.bytes.now }
        ensures { result ≡ said_of (judged_of (operations_in self.entry.bytes.now) (first_in self.entry.bytes.now) (last_in self.entry.bytes.now)) }
    {
        let start = Standing {
            history: self,
            place: self.fresh_place(),
        };
        if start.is_finished() {
            return say_lawful(&start.place, 0);
        }
        start.choose(self.count(), 0, 0)
    }
}
