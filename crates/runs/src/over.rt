// Whether a fence finds something later than its flush persisted already: the sets of the machine before it say so.
ghost use Rattle.std.specs.Prelude.{◌≡◌, ◌≤◌, ◌<◌};
ghost use Rattle.image.specs.Form.{head_lines};
ghost use Rattle.runs.specs.Rows.{over_in};

use image::{Shape, head_lines};
use machine::Machine;

// Thread k is over line l. `heads` and `nodes` are the threads over each head line and over each node; over a line that there is not is none.
pub fn is_over(heads: [u8; 8], nodes: [u8; 64], z: Shape, l: usize, k: u32) -> bool
    requires { (head_lines z ≤ 8) × (k < 8) }
    ensures { result ≡ over_in heads nodes z l k }
{
    let lines = head_lines(z);
    if l < lines {
        return bits::is_in8(heads[l], k);
    }
    let i = l - lines;
    if Machine::NODES <= i {
        return false;
    }
    bits::is_in8(nodes[i], k)
}
