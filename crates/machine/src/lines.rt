// Lines by their numbers: the head lines, then the nodes.
ghost use Rattle.std.specs.Prelude.{◌≡◌, ◌≤◌};
ghost use Rattle.image.specs.Form.{head_lines};
ghost use Rattle.machine.specs.Line.{line_at, number_of};

use super::Line;
use image::{Shape, head_lines};

// The line numbered l of a machine of this shape.
pub fn line_at(z: Shape, l: u8) -> Line
    requires { head_lines z ≤ 255 }
    ensures { result ≡ line_at z l }
{
    let lines = head_lines(z) as u8;
    if l < lines {
        return Line::OfHead(l);
    }
    Line::OfNode(l - lines)
}

// The number of a line.
pub fn number_of(z: Shape, l: Line) -> usize
    requires { head_lines z ≤ 255 }
    ensures { result ≡ number_of z l }
{
    match l {
        Line::OfHead(k) => k as usize,
        Line::OfNode(i) => head_lines(z) + i as usize,
    }
}
