// What a record knows of flushes (request 104): each content is one, and each set is of threads.
ghost use Rattle.std.specs.Prelude.{◌≡◌, Bool, true, false, not, ◌≤◌, ◌^◌, ltb};
ghost use Rattle.std.specs.List.{list_all};
ghost use Rattle.lists.specs.Find.{any};
ghost use Rattle.machine.specs.Range.{flushes_fit};
ghost use Rattle.range.specs.Parts.{flush_in, bad_flush};

use super::set_fits;
use image::{Content, head_lines, top_of};
use machine::Machine;

// What a thread has flushed, and who has flushed since.
fn flush_fits(top: u64, t: u8, c: Content, late: u8) -> bool
    requires { t ≤ 8 }
    ensures { result ≡ flush_in top t c late }
{
    c.linked <= 1 && c.index <= top && set_fits(late as u64, t)
}

fn threads_flushed(flushed: [Content; 8], late: [u8; 8], top: u64, t: u8) -> bool
    requires { t ≤ 8 }
    ensures { result ≡ not (any (bad_flush top t flushed late) t) }
{
    (0..t as usize).all(|k| flush_fits(top, t, flushed[k], late[k]))
}

// The threads over each head line, or over each node.
fn sets_fit(over: &[u8], t: u8) -> bool
    requires { t ≤ 8 }
    ensures { result ≡ list_all (λ w. ltb w (2 ^ t)) over.now }
{
    over.iter().all(|w| set_fits(*w as u64, t))
}

pub fn flushes_fit(m: &Machine) -> bool
    requires { (m.now.n ≤ 64) × (m.now.t ≤ 8) }
    ensures { result ≡ flushes_fit m.now }
{
    let lines = head_lines(m.shape());
    threads_flushed(m.flushed, m.late, top_of(m.form), m.t)
        && sets_fit(&m.over_heads[..lines], m.t)
        && sets_fit(&m.over[..m.n as usize], m.t)
}
