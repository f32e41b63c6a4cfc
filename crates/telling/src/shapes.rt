// Which lines a machine has: the head lines, as many as its form says, then the nodes.
ghost use Rattle.std.specs.Prelude.{◌≤◌};

use image::{Shape, head_lines, largest_of};
use machine::{Line, Machine};

// Whether each desk has a head line of its own: "UQP".
pub fn per_desk(z: Shape) -> bool {
    z.form == 4
}

// How many head lines there are. No machine has more than eight.
pub fn heads_in(z: Shape) -> u8
    ensures { result ≤ 8 }
{
    head_lines(z).min(Machine::HEADS) as u8
}

// How many lines there are.
pub fn line_total(z: Shape) -> u8 {
    heads_in(z) + z.n.min(64)
}

// The line of a number.
pub fn line_of(z: Shape, line: u8) -> Line {
    let heads = heads_in(z);
    if line < heads {
        Line::OfHead(line)
    } else {
        Line::OfNode(line - heads)
    }
}

// The number of a node's line, where there is such a node.
pub fn node_line(z: Shape, i: u8) -> Option<u8> {
    if i < 64 { Some(heads_in(z) + i) } else { None }
}

// The number of the head line that desk k persists.
pub fn head_line(z: Shape, k: u8) -> u8 {
    if per_desk(z) { k } else { 0 }
}

// The head index that a start takes: the largest of the head lines.
pub fn head_index(m: &Machine) -> u64 {
    largest_of(m.heads, heads_in(m.shape()) as usize)
}
