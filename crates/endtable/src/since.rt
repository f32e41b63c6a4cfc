// #104: the contents since a flush. Beside the rows of the lines a run keeps one for each thread: while the thread is at its fence, that of the line's contents
// since its flush.
ghost use Rattle.std.specs.Prelude.{◌≡◌, ℕ, ◌<◌, ◌≤◌};
ghost use Rattle.image.specs.Form.{head_lines};
ghost use Rattle.endtable.specs.Since.{fence_row, since_joined, no_since};

use crate::row::Row;
use image::{Content, Shape, head_lines};
use machine::Thread;

// No thread has flushed.
pub fn no_since() -> [Row; 8]
    ensures { result ≡ no_since }
{
    [Row::blank(); 8]
}

// The number of the line that thread k, which is v, is at its fence of; 72 where it is at none, as the definition fence_row counts. Its step says it.
fn fence_row(z: Shape, k: usize, v: Thread) -> usize
    requires { head_lines z ≤ 8 }
    ensures { result ≡ fence_row z k v }
{
    if v.step < 22 {
        return 72;
    }
    if v.step == 22 {
        return head_lines(z) + v.node as usize;
    }
    if z.form == 4 {
        return k;
    }
    0
}

// The rows since the flushes after a store that left line l with the content c.
pub fn join_since(z: Shape, threads: &[Thread; 8], since: &mut [Row; 8], l: usize, c: Content)
    requires { head_lines z ≤ 8 }
    ensures { since.new ≡ since_joined z threads.now since.old l c 8 }
{
    for k in 0..8 {
        if fence_row(z, k, threads[k]) == l {
            since[k] = since[k].joined(c, false);
        }
    }
}
