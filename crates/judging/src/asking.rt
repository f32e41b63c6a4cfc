// What is asked of a place: whether an operation is eligible, and whether the search is finished.
ghost use Rattle.std.specs.Prelude.{◌≡◌, ◌+◌, ◌≤◌, ◌<◌, length};
ghost use Rattle.judging.specs.History.{count_in, first_count};
ghost use Rattle.judging.specs.Place.{due, bar_with, bar_below, any_due, is_finished, gives, is_eligible, next_from, found};

use crate::reading::History;
use crate::standing::Standing;

impl History<'_> {
    // Whether operation j is answered and not taken.
    fn is_due(self, taken: [u8; 16], j: usize) -> bool
        requires { j < count_in self.bytes.now }
        ensures { result ≡ due self.entry.bytes.now taken j }
    {
        taken[j] == 0 && self.answer(j) != 0
    }

    // The lesser of a time and operation j's answer time, where that is due.
    #[tactic(auto, unfolding(crate::specs::Place::bar_with))]
    fn bar_with(self, taken: [u8; 16], j: usize, bar: u64) -> u64
        requires { j < count_in self.bytes.now }
        ensures { result ≡ bar_with self.entry.bytes.now taken j bar }
    {
        if self.is_due(taken, j) && self.ended(j) < bar {
            self.ended(j)
        } else {
            bar
        }
    }

    // The least answer time of those that are due.
    #[tactic(auto, unfolding(crate::specs::Place::bar_below))]
    pub fn bar(self, taken: [u8; 16]) -> u64
        ensures { result ≡ bar_below self.entry.bytes.now taken (count_in self.entry.bytes.now) }
    {
        let mut bar = u64::MAX;
        for j in 0..self.count() {
            bar = self.bar_with(taken, j, bar);
        }
        bar
    }

    #[tactic(auto, using(lists::proofs::FindLaws::any_hit, lists::proofs::FindLaws::any_more), unfolding(lists::specs::Find::any, crate::specs::Place::any_due))]
    fn any_due(self, taken: [u8; 16]) -> bool
        ensures { result ≡ any_due self.entry.bytes.now taken }
    {
        for j in 0..self.count() {
            if self.is_due(taken, j) {
                return true;
            }
        }
        false
    }
}

impl Standing<'_> {
    // Whether every answered operation is taken and the queue is the recovered one.
    #[tactic(auto, unfolding(crate::specs::Place::is_finished))]
    pub fn is_finished(&self) -> bool
        ensures { result ≡ is_finished self.now.history.bytes.now self.now.place }
    {
        !self.history.any_due(self.place.taken) && self.is_same()
    }

    // Whether a dequeue with answer a and item v fits the queue.
    #[tactic(auto, unfolding(crate::specs::Place::gives))]
    fn is_given(&self, a: u8, v: u32) -> bool
        ensures { result ≡ gives self.now.history.bytes.now self.now.place a v }
    {
        match a {
            0 => true,
            5 => !self.is_there(),
            _ => self.is_there() && self.item(self.place.from as usize) == v,
        }
    }

    // Whether operation i is eligible.
    #[tactic(auto, unfolding(crate::specs::Place::is_eligible))]
    fn is_eligible(&self, i: usize) -> bool
        requires { i < count_in self.now.history.bytes.now }
        ensures { result ≡ is_eligible self.now.history.bytes.now self.now.place i }
    {
        self.place.taken[i] == 0
            && self.history.began(i) <= self.place.bar
            && (self.history.kind(i) == 1
                || self.is_given(self.history.answer(i), self.history.item(i)))
    }

    // The first eligible operation from i on.
    #[tactic(auto, using(lists::proofs::FindLaws::least_next, crate::proofs::Found::found_at, crate::proofs::Found::found_end), unfolding(crate::specs::Place::next_from))]
    pub fn next_eligible(&self, i: usize) -> Option<usize>
        requires { i ≤ count_in self.now.history.bytes.now }
        ensures { result ≡ found (count_in self.now.history.bytes.now) (next_from self.now.history.bytes.now self.now.place i) }
    {
        for j in i..self.history.count() {
            if self.is_eligible(j) {
                return Some(j);
            }
        }
        None
    }
}
