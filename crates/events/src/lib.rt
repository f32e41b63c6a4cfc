// The machine one event at a time: calls on a machine record that is handed in. Each tests 18 before all else.
// Public calls: on_event, apply, save, count_places. act and kept_image are for the crates above.

#![tactic(auto)]

mod arms;
mod clean;

ghost use Rattle.std.specs.Prelude.{◌≡◌, length};
ghost use Rattle.answer.specs.Answers.{told, given};
ghost use Rattle.machine.specs.Event.{event_on};
ghost use Rattle.machine.specs.Place.{count_places};
ghost use Rattle.machine.specs.Saved.{save_answer, saved};
ghost use Rattle.events.specs.Applied.{Applied};

use answer::{Answer, Refusal};
pub use arms::{act, kept_image};
use machine::{Event, Machine, Out, Places};
use range::in_range;

// A single event. A refused one changes nothing.
pub fn on_event(m: Machine, e: Event) -> Out
    ensures answers { told result.answer ≡ told (event_on m e).answer }
    ensures machine { result.machine ≡ (event_on m e).machine }
{
    if !range::in_range(m) {
        return Out {
            answer: Err(Refusal::Record),
            machine: m,
        };
    }
    let r = act(0, m, e);
    Out::from(r)
}

// The same on the record that the caller keeps. A refused event leaves it as it was.
pub fn apply(m: &mut Machine, e: Event) -> Answer
    ensures { Applied m.old e result m.new }
{
    let r = on_event(*m, e);
    *m = r.machine;
    r.answer
}

// Writes the persisted copies as an image, in the record's form, into the buffer's first bytes, or nothing.
pub fn save(m: Machine, b: &mut [u8]) -> Answer
    ensures answers { told result ≡ told (save_answer m (length b.old)) }
    ensures bytes { b.new ≡ saved m b.old }
{
    if !in_range(m) {
        return Err(Refusal::Record);
    }
    codec::write_image(kept_image(m), b)
}

// How many nodes are in each of the six places.
pub fn count_places(m: Machine) -> Result<Places, Refusal>
    ensures { result ≡ given (count_places m).answer (count_places m).places }
{
    if in_range(m) {
        Ok(range::places_of(m))
    } else {
        Err(Refusal::Record)
    }
}
