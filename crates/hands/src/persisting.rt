// A line is written back whole, as by a write-back.
ghost use Rattle.std.specs.Prelude.{true, ◌≡◌, ℕ, ◌≤◌};
ghost use Rattle.lists.specs.Word.{word_of};
ghost use Rattle.machine.specs.Line.{persist};
ghost use Rattle.hands.specs.Places.{HasPlace};

use image::Content;
use machine::{Line, Machine};

// The threads below t, as a set.
fn all_below(t: u8) -> u8
    requires { t ≤ 8 }
    ensures { result ≡ word_of (λ u. true) t }
{
    let w = (1u16 << t) - 1;
    w as u8
}

pub fn persist_line(m: Machine, l: Line) -> Machine
    requires { (m.t ≤ 8) × HasPlace l }
    ensures { result ≡ persist m l }
{
    let all = all_below(m.t);
    let mut r = m;
    match l {
        Line::OfHead(k) => {
            let h = k as usize;
            r.kept_heads[h] = r.heads[h];
            r.over_heads[h] = all;
            r
        }
        Line::OfNode(x) => {
            let i = x as usize;
            r.kept[i] = Content::from(r.nodes[i]);
            r.over[i] = all;
            r
        }
    }
}
