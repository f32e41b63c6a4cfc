// From an ending's choices to those of the next one.
ghost use Rattle.std.specs.Prelude.{◌≡◌, ◌≤◌};
ghost use Rattle.image.specs.Form.{head_lines};
ghost use Rattle.machine.specs.Line.{line_count};
ghost use Rattle.endtable.specs.Picks.{Counted, turned_of};

use image::{Shape, head_lines};

// The last line turns fastest: a line that has no content left begins again, and the line before it turns. Behind the last ending comes
// the first. A page turns from line to line, which costs less than the choices from the ending's number.
pub fn turned(counts: [u8; 72], z: Shape, picks: [u8; 72]) -> [u8; 72]
    requires { (z.n ≤ 64) × (head_lines z ≤ 8) × Counted counts (line_count z) }
    ensures { result ≡ turned_of counts (line_count z) picks }
{
    let mut p = picks;
    for i in (0..head_lines(z) + z.n as usize).rev() {
        let d = p[i];
        if d < counts[i] - 1 {
            p[i] = d + 1;
            return p;
        }
        p[i] = 0;
    }
    p
}
