// The queue that a place shows: the items of the start, then those appended, without those taken out.
ghost use Rattle.std.specs.Prelude.{◌≡◌, ◌+◌, ◌≤◌, ◌<◌};
ghost use Rattle.judging.specs.History.{first_count, last_count};
ghost use Rattle.judging.specs.Place.{item_of, is_there, same_queue};

use crate::Place;
use crate::reading::History;
use codec::word_at;

// A place of the search in a history. At most sixteen items are appended.
#[derive(Clone, Copy)]
pub struct Standing<'a> {
    pub history: History<'a>,
    pub place: Place,
    ghost room: { place.put ≤ 16 },
}

impl Standing<'_> {
    // The item at place p of all items.
    #[tactic(auto, unfolding(crate::specs::Place::item_of))]
    pub fn item(&self, p: usize) -> u32
        requires { p < first_count self.now.history.bytes.now + self.now.place.put }
        ensures { result ≡ item_of self.now.history.bytes.now self.now.place p }
    {
        let a = self.history.bytes[1] as usize;
        if p < a {
            return word_at(self.history.bytes, 3 + p * 4);
        }
        self.place.items[p - a]
    }

    // Whether the queue has an item.
    pub fn is_there(&self) -> bool
        ensures { result ≡ is_there self.now.history.bytes.now self.now.place }
    {
        (self.place.from as usize) < (self.history.bytes[1] as usize) + (self.place.put as usize)
    }

    // Whether the queue is the recovered one.
    #[tactic(auto, using(lists::proofs::FindLaws::any_hit, lists::proofs::FindLaws::any_more), unfolding(lists::specs::Find::any, crate::specs::Place::same_queue))]
    pub fn is_same(&self) -> bool
        ensures { result ≡ same_queue self.now.history.bytes.now self.now.place }
    {
        let a = self.history.bytes[1] as usize;
        let b = self.history.bytes[2] as usize;
        let from = self.place.from as usize;
        if a + (self.place.put as usize) != from + b {
            return false;
        }
        for p in 0..b {
            if self.item(from + p) != word_at(self.history.bytes, 3 + a * 4 + p * 4) {
                return false;
            }
        }
        true
    }
}
