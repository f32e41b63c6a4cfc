// The place before the first taking, and after one more.
ghost use Rattle.std.specs.Prelude.{◌≡◌, ◌+◌, ◌≤◌, ◌<◌, length};
ghost use Rattle.judging.specs.History.{count_in, first_count};
ghost use Rattle.judging.specs.Place.{no_bytes, no_items, served, took, fresh};

use crate::Place;
use crate::reading::History;
use crate::standing::Standing;

#[tactic(auto, unfolding(crate::specs::Place::no_bytes))]
pub fn no_bytes() -> [u8; 16]
    ensures { result ≡ no_bytes }
{
    [0; 16]
}

#[tactic(auto, unfolding(crate::specs::Place::no_items))]
fn no_items() -> [u32; 16]
    ensures { result ≡ no_items }
{
    [0; 16]
}

impl History<'_> {
    // The place before the first taking.
    #[tactic(auto, unfolding(crate::specs::Place::fresh))]
    pub fn fresh_place(self) -> Place
        ensures { result ≡ fresh self.entry.bytes.now }
    {
        let taken = no_bytes();
        Place {
            taken,
            order: taken,
            items: no_items(),
            bar: self.bar(taken),
            count: 0,
            put: 0,
            from: 0,
        }
    }
}

impl Standing<'_> {
    // The queue after operation i, which fits it.
    #[tactic(auto, unfolding(crate::specs::Place::served))]
    fn serve(&self, i: usize) -> Place
        requires { (self.now.place.put < 16) × (self.now.place.from < 255) × (i < count_in self.now.history.bytes.now) }
        ensures { result ≡ served self.now.history.bytes.now self.now.place i }
    {
        let mut r = self.place;
        if self.history.kind(i) == 1 {
            if self.history.answer(i) < 2 {
                r.items[r.put as usize] = self.history.item(i);
                r.put += 1;
            }
        } else if self.is_there() {
            r.from += 1;
        }
        r
    }

    // The place after operation i, which is eligible.
    #[tactic(auto, unfolding(crate::specs::Place::took))]
    pub fn take(&self, i: usize) -> Place
        requires { (self.now.place.put < 16) × (self.now.place.from < 255) × (self.now.place.count < 16) × (i < count_in self.now.history.bytes.now) }
        ensures { result ≡ took self.now.history.bytes.now self.now.place i }
    {
        let mut r = self.serve(i);
        r.taken[i] = 1;
        r.order[self.place.count as usize] = i as u8;
        r.count = self.place.count + 1;
        r.bar = self.history.bar(r.taken);
        r
    }
}
