// Whether a line is clean: its cached and persisted contents are equal (request 102).
ghost use Rattle.std.specs.Prelude.{◌≡◌};
ghost use Rattle.machine.specs.Event.{clean};
ghost use Rattle.hands.specs.Places.{HasPlace};

use image::Content;
use machine::{Line, Machine};

pub fn is_clean(m: Machine, l: Line) -> bool
    requires { HasPlace l }
    ensures { result ≡ clean m l }
{
    match l {
        Line::OfHead(k) => {
            let h = k as usize;
            m.heads[h] == m.kept_heads[h]
        }
        Line::OfNode(x) => {
            let i = x as usize;
            Content::from(m.nodes[i]) == m.kept[i]
        }
    }
}
