// As many lines of a page as a lent buffer takes.
ghost use Rattle.std.specs.Prelude.{◌≡◌, ◌+◌, ◌-◌, ◌≤◌, ◌<◌, length};
ghost use Rattle.lists.specs.Tab.{over};
ghost use Rattle.image.specs.Form.{head_lines};
ghost use Rattle.machine.specs.Line.{line_count};
ghost use Rattle.page.specs.Filled.{lines_on, fitting};
ghost use Rattle.endtable.specs.Picks.{Ready};
ghost use Rattle.printing.specs.Bounds.{line_room};
ghost use Rattle.printing.specs.Lines.{line_from};

use super::fitting::fit_ending;
use endtable::ending::{ending_picks, own_threads};
use endtable::turn::turned;
use image::{Content, Image, Shape, head_lines, no_contents, no_heads};

// How far it went: the first ending, or line of the page, that is not written, and the place behind the last that is.
#[derive(Clone, Copy)]
pub struct Stretch {
    pub next: u32,
    pub place: usize,
}

// The lines of endings `from`, `from` + 1, .. below `to` from place `at` on, as many as fit. The choices are turned from line to line,
// and an ending's nodes are picked here: to hand the table on would copy it for each line.
pub fn write_endings(
    b: &mut [u8],
    at: usize,
    t: [[Content; 16]; 72],
    counts: [u8; 72],
    z: Shape,
    from: u32,
    to: u32,
) -> Stretch
    requires { (z.n ≤ 64) × (head_lines z ≤ 8) × Ready counts (line_count z) × (from ≤ to) × (to ≤ 65536) × (at ≤ length b.old) }
    ensures next { result.next ≡ from + fitting (line_from t counts z) from (to - from) (length b.old - at) }
    ensures place { result.place ≡ at + length (lines_on (line_from t counts z) from (result.next - from)) }
    ensures bytes { b.new ≡ over b.old at (lines_on (line_from t counts z) from (result.next - from)) }
    ensures short { from < to → length (line_from t counts z from) ≤ line_room 64 }
{
    let lines = head_lines(z);
    let count = z.n as usize;
    let held = own_threads(z);
    let mut picks = ending_picks(counts, z, from);
    let mut p = at;
    for k in from..to {
        let mut nodes = no_contents();
        for i in 0..count {
            let j = picks[lines + i] as usize;
            nodes[i] = t[lines + i][j];
        }
        let mut heads = no_heads();
        for h in 0..lines {
            let j = picks[h] as usize;
            let c = t[h][j];
            heads[h] = c.index;
        }
        let g = Image {
            heads,
            nodes,
            form: z.form,
            n: z.n,
            t: held,
        };
        let q = fit_ending(b, p, k, g);
        if q == p {
            return Stretch { next: k, place: p };
        }
        p = q;
        let next = turned(counts, z, picks);
        picks = next;
    }
    Stretch { next: to, place: p }
}
