// The form of a record, and whether every index is within its width.
ghost use Rattle.std.specs.Prelude.{◌≡◌, Bool, true, false, not, ◌≤◌};
ghost use Rattle.lists.specs.Find.{any};
ghost use Rattle.image.specs.Form.{head_lines};
ghost use Rattle.machine.specs.Line.{shape_of};
ghost use Rattle.machine.specs.Range.{form_fits};
ghost use Rattle.range.specs.Parts.{wide_head, wide_node, wide_thread};

use image::{head_lines, is_known, top_of};
use machine::Machine;

// Both copies of every node's index.
fn nodes_narrow(m: &Machine) -> bool
    requires { m.now.n ≤ 64 }
    ensures { result ≡ not (any (wide_node m.now) m.now.n) }
{
    let top = top_of(m.form);
    (0..m.n as usize).all(|i| m.nodes[i].index <= top && m.kept[i].index <= top)
}

// What each thread read of Head.
fn threads_narrow(m: &Machine) -> bool
    requires { m.now.t ≤ 8 }
    ensures { result ≡ not (any (wide_thread m.now) m.now.t) }
{
    let top = top_of(m.form);
    (0..m.t as usize).all(|k| m.threads[k].index <= top)
}

// Both copies of every head line's index.
fn heads_narrow(m: &Machine) -> bool
    requires { head_lines (shape_of m.now) ≤ 8 }
    ensures { result ≡ not (any (wide_head m.now) (head_lines (shape_of m.now))) }
{
    let top = top_of(m.form);
    let lines = head_lines(m.shape());
    (0..lines).all(|k| m.heads[k] <= top && m.kept_heads[k] <= top)
}

pub fn form_fits(m: &Machine) -> bool
    requires { (m.now.n ≤ 64) × (m.now.t ≤ 8) }
    ensures { result ≡ form_fits m.now }
{
    is_known(m.form) && heads_narrow(m) && nodes_narrow(m) && threads_narrow(m)
}
