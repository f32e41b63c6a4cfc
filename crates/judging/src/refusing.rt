// The refusals of a history: 1, then by operation in turn 9, 13.
ghost use Rattle.std.specs.Prelude.{◌≡◌, Err, ◌<◌, ◌≤◌, length};
ghost use Rattle.judging.specs.History.{count_in, kind_at, answer_at, kind_fits, time_fits, fits, first_odd, fault_at, sized, odd_answer};
ghost use Rattle.judging.specs.Place.{found};

use crate::reading::{History, operation_at};
use answer::{Answer, Refusal, Reply};

// Whether the kind is known and can have the answer.
#[tactic(auto, unfolding(crate::specs::History::kind_fits))]
fn kind_fits(k: u8, a: u8) -> bool
    ensures { result ≡ kind_fits k a }
{
    match k {
        1 => a < 4,
        2 => a == 0 || a == 4 || a == 5,
        _ => false,
    }
}

// Whether the answer time may stand beside the begin time.
#[tactic(auto, unfolding(crate::specs::History::time_fits))]
fn time_fits(a: u8, began: u64, ended: u64) -> bool
    ensures { result ≡ time_fits a began ended }
{
    if a == 0 { ended == 0 } else { began <= ended }
}

// At most 16 operations, at most 63 items in each queue, and as many bytes as that takes.
#[tactic(auto, unfolding(crate::specs::History::sized))]
pub fn is_sized(h: &[u8]) -> bool
    ensures { result ≡ sized h.now }
{
    h.len() >= 3
        && h[0] <= 16
        && h[1] <= 63
        && h[2] <= 63
        && h.len() == operation_at(h, h[0] as usize)
}

impl History<'_> {
    #[tactic(auto, unfolding(crate::specs::History::fits))]
    fn is_fit(self, i: usize) -> bool
        requires { i < count_in self.bytes.now }
        ensures { result ≡ fits self.entry.bytes.now i }
    {
        let a = self.answer(i);
        kind_fits(self.kind(i), a) && time_fits(a, self.began(i), self.ended(i))
    }

    // The first operation with a fault.
    #[tactic(auto, using(lists::proofs::FindLaws::least_next, crate::proofs::Found::found_at, crate::proofs::Found::found_end), unfolding(crate::specs::History::odd, crate::specs::History::first_odd))]
    fn first_odd(self) -> Option<usize>
        ensures { result ≡ found (count_in self.entry.bytes.now) (first_odd self.entry.bytes.now) }
    {
        for i in 0..self.count() {
            if !self.is_fit(i) {
                return Some(i);
            }
        }
        None
    }

    // Its fault.
    #[tactic(auto, unfolding(crate::specs::History::fault_at))]
    fn fault_at(self, i: usize) -> Refusal
        requires { i < count_in self.bytes.now }
        ensures { Err result ≡ fault_at self.entry.bytes.now i }
    {
        if kind_fits(self.kind(i), self.answer(i)) {
            Refusal::NotZero(i as u32)
        } else {
            Refusal::Kind(i as u32)
        }
    }

    // The refusals behind 1.
    pub fn check(self) -> Answer
        ensures { result ≡ odd_answer self.entry.bytes.now }
    {
        match self.first_odd() {
            Some(i) => Err(self.fault_at(i)),
            None => Ok(Reply::Taken),
        }
    }
}
