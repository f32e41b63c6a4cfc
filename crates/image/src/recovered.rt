// Which nodes of an image by value are recovered; twins (7) and the dummy (8).
ghost use Rattle.std.specs.Prelude.{◌≡◌, ◌≤◌};
ghost use Rattle.answer.specs.Answers.{Taken};
ghost use Rattle.image.specs.Form.{head_lines};
ghost use Rattle.image.specs.Layout.{image_shape};
ghost use Rattle.image.specs.Recovered.{largest, recovered, dummy_of};
ghost use Rattle.image.specs.Refusals.{startable};

use super::heads::head_of;
use super::nodes::{Nodes, dummy, startable};
use super::{Content, Image, Shape};
use answer::Answer;

// A node is recovered when its linked flag is 1 and its index is above the head index.
pub fn is_recovered(c: Content, h: u64) -> bool
    ensures { result ≡ recovered h c }
{
    c.linked == 1 && h < c.index
}

// By the indices of the head lines.
pub fn recovered_in(c: Content, heads: [u64; 8], z: Shape) -> bool
    requires { head_lines z ≤ 8 }
    ensures { result ≡ recovered (largest heads (head_lines z)) c }
{
    is_recovered(c, head_of(heads, z))
}

// The lowest-numbered node that is not recovered, and N where every node is.
pub fn dummy_of(g: Image) -> usize
    requires { (g.n ≤ 64) × (head_lines (image_shape g) ≤ 8) }
    ensures { result ≡ dummy_of g }
{
    dummy(&g, g.head())
}

// What a start asks of an image.
pub fn startable_of(g: Image) -> Answer
    requires { (g.n ≤ 64) × (head_lines (image_shape g) ≤ 8) }
    ensures { result ≡ startable g Taken }
{
    startable(&g)
}
