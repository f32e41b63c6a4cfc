// A node is retired: it waits for every other thread that has an operation at that moment.
ghost use Rattle.std.specs.Prelude.{◌≡◌, ℕ, ◌<◌, ◌≤◌, ◌^◌};
ghost use Rattle.machine.specs.Retire.{others, retired};
ghost use Rattle.hands.specs.Others.{joined, others_below};

use machine::Machine;

// The set w of threads below u, with thread u in it where that is another thread that has an operation.
fn join(m: Machine, k: usize, u: usize, w: u8) -> u8
    requires { (u < 8) × (w < 2 ^ u) }
    ensures { result ≡ joined m k u w }
{
    if u == k {
        return w;
    }
    let threads = m.threads;
    let th = threads[u];
    if th.step == 0 {
        return w;
    }
    bits::with_bit8(w, u as u32)
}

// The other threads that have an operation, as a set.
fn all_others(m: Machine, k: usize) -> u8
    requires { m.t ≤ 8 }
    ensures { result ≡ others m k }
{
    let mut w = 0;
    for u in 0..m.t as usize {
        w = join(m, k, u, w);
    }
    w
}

// Thread k retires node x: where no other thread has an operation it is free at once.
pub fn retire(m: Machine, k: usize, x: usize) -> Machine
    requires { (m.t ≤ 8) × (x < 64) }
    ensures { result ≡ retired m k x }
{
    let mut r = m;
    let w = all_others(m, k);
    r.nodes[x].waits = w;
    if w == 0 {
        let f = bits::with_bit(r.free, x as u32);
        r.free = f;
        return r;
    }
    r
}
