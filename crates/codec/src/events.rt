// An event's six bytes.
ghost use Rattle.std.specs.Prelude.{◌≡◌, ◌+◌, ◌≤◌, length, true};
ghost use Rattle.image.specs.Form.{known};
ghost use Rattle.schedule.specs.Layout.{event_from, event_place};

use crate::bytes::word_at;
use image::{Shape, size_of};
use machine::Event;

// The event whose bytes begin at a place.
pub fn event_from(s: &[u8], at: usize) -> Event
    requires { at + 6 ≤ length s.now }
    ensures { result ≡ event_from s.now at }
{
    let item = word_at(s, at + 2);
    Event {
        kind: s[at],
        number: s[at + 1],
        item,
    }
}

// Event i of a schedule that is long enough, whose machine has this shape.
pub fn event_at(s: &[u8], z: Shape, i: usize) -> Event
    requires { (known z.form ≡ true) × (event_place z i + 6 ≤ length s.now) }
    ensures { result ≡ event_from s.now (event_place z i) }
{
    event_from(s, 8 + size_of(z) + i * 6)
}
