// Entries one behind the other, as many as fit.
ghost use Rattle.std.specs.Prelude.{◌≡◌, true, ◌+◌, ◌-◌, ◌≤◌, length};
ghost use Rattle.lists.specs.Tab.{over};
ghost use Rattle.answer.specs.Answers.{accepted};
ghost use Rattle.schedule.specs.Layout.{schedule_in, schedule_answer};
ghost use Rattle.page.specs.Filled.{lines_on, fitting};
ghost use Rattle.spelling.specs.Writing.{entry_of, entries_in};

use crate::entries::put_entry;
use printing::put;
use schedule::Schedule;

// How far it went: the first entry that is not written, and the place behind the last that is.
#[derive(Clone, Copy, Debug, PartialEq, Eq)]
pub struct Reach {
    pub next: usize,
    pub place: usize,
}

// Entries from `from` on, none at `to` or behind it.
pub fn put_entries(s: &[u8], d: Schedule, from: usize, to: usize, b: &mut [u8]) -> Reach
    requires { (accepted (schedule_answer s.now) ≡ true) × (d ≡ schedule_in s.now) × (to ≡ entries_in s.now) × (from ≤ to) × (to ≤ 5000) }
    ensures next { result.next ≡ from + fitting (entry_of s.now) from (to - from) (length b.old) }
    ensures place { result.place ≡ length (lines_on (entry_of s.now) from (result.next - from)) }
    ensures bytes { b.new ≡ over b.old 0 (lines_on (entry_of s.now) from (result.next - from)) }
    ensures within { (from ≤ result.next) × (result.next ≤ to) }
{
    let mut p = 0;
    for k in from..to {
        let mut line = [0u8; 64];
        let n = put_entry(s, d, k, &mut line);
        if b.len() - p < n {
            return Reach { next: k, place: p };
        }
        p = put(b, p, &line[..n]);
    }
    Reach { next: to, place: p }
}
