// An event of a probe file: its twelve bytes.
ghost use Rattle.std.specs.Prelude.{◌≡◌, ◌+◌, ◌≤◌, length, true};
ghost use Rattle.image.specs.Form.{known};
ghost use Rattle.schedule.specs.Layout.{place_in};
ghost use Rattle.replaying.specs.Probe.{probed_from};

use crate::Probed;
use codec::{event_from, word_at};
use image::{Shape, size_of};

fn probed_from(s: &[u8], at: usize) -> Probed
    requires { at + 12 ≤ length s.now }
    ensures { result ≡ probed_from s.now at }
{
    Probed {
        event: event_from(s, at),
        seen: s[at + 6],
        item: word_at(s, at + 7),
        last: s[at + 11],
    }
}

// Event i of a file that is long enough, whose machine has this shape.
pub fn probed_at(s: &[u8], z: Shape, i: usize) -> Probed
    requires { (known z.form ≡ true) × (place_in 12 z i + 12 ≤ length s.now) }
    ensures { result ≡ probed_from s.now (place_in 12 z i) }
{
    probed_from(s, 8 + size_of(z) + i * 12)
}
