// A thread answers: the nodes that wait for it wait for it no longer, and those that then wait for none are free.
ghost use Rattle.std.specs.Prelude.{◌≡◌, ℕ, ◌<◌, ◌≤◌};
ghost use Rattle.lists.specs.Find.{pick};
ghost use Rattle.lists.specs.Word.{with};
ghost use Rattle.machine.specs.Retire.{last_wait, left};

use machine::{Machine, Thread};

// The free set, once node i no longer waits for thread k. It waited for the threads w.
fn free_after(free: u64, w: u8, k: usize, i: usize) -> u64
    requires { (k < 8) × (i < 64) }
    ensures { result ≡ pick (last_wait w k) (with free i) free }
{
    if bits::is_in8(w, k as u32) {
        let rest = bits::without_bit8(w, k as u32);
        if rest == 0 {
            return bits::with_bit(free, i as u32);
        }
        return free;
    }
    free
}

// Thread k has answered: it has no operation, and holds node x.
pub fn leave(m: Machine, k: usize, x: u8) -> Machine
    requires { (k < 8) × (m.n ≤ 64) }
    ensures { result ≡ left m k x }
{
    let mut r = m;
    for i in 0..m.n as usize {
        let mut v = r.nodes[i];
        let w = v.waits;
        let rest = bits::without_bit8(w, k as u32);
        let f = free_after(r.free, w, k, i);
        v.waits = rest;
        r.nodes[i] = v;
        r.free = f;
    }
    r.threads[k] = Thread::idle(x);
    r
}
