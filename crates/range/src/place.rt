// The six places of a node, and how many nodes are in each.
ghost use Rattle.std.specs.Prelude.{◌≡◌, true, ◌≤◌};
ghost use Rattle.machine.specs.Range.{in_range};
ghost use Rattle.machine.specs.Place.{in_queue, is_waiting, is_held, in_enqueue, in_dequeue, placed, places_of};

use crate::used_by;
use machine::{Machine, Places};

// Along the links from Head's node, N moves at most.
fn in_queue(m: &Machine, i: usize) -> bool
    requires { in_range m.now ≡ true }
    ensures { result ≡ in_queue m.now i }
{
    let mut x = m.head as usize;
    let mut c = m.n;
    while 0 < c {
        if x == i {
            return true;
        }
        let v = m.nodes[x];
        if v.next == 255 {
            return false;
        }
        x = v.next as usize;
        c -= 1;
    }
    x == i
}

// Some thread holds node i, owns it by an enqueue, owns it by a dequeue.
fn is_held(m: &Machine, i: usize) -> bool
    requires { m.now.t ≤ 8 }
    ensures { result ≡ is_held m.now i }
{
    (0..m.t as usize).any(|k| m.threads[k].held as usize == i)
}

fn in_enqueue(m: &Machine, i: usize) -> bool
    requires { m.now.t ≤ 8 }
    ensures { result ≡ in_enqueue m.now i }
{
    (0..m.t as usize).any(|k| m.threads[k].node as usize == i && used_by(m.threads[k].step).enqueue)
}

fn in_dequeue(m: &Machine, i: usize) -> bool
    requires { m.now.t ≤ 8 }
    ensures { result ≡ in_dequeue m.now i }
{
    (0..m.t as usize).any(|k| m.threads[k].head as usize == i && used_by(m.threads[k].step).dequeue)
}

// How many nodes wait for some thread, are held, owned by an enqueue, owned by a dequeue.
fn waiting(m: &Machine) -> usize
    requires { m.now.n ≤ 64 }
    ensures { result ≡ placed is_waiting m.now }
{
    (0..m.n as usize).filter(|i| m.nodes[*i].waits != 0).count()
}

fn held(m: &Machine) -> usize
    requires { m.now.t ≤ 8 }
    ensures { result ≡ placed is_held m.now }
{
    (0..m.n as usize).filter(|i| is_held(m, *i)).count()
}

fn enqueued(m: &Machine) -> usize
    requires { m.now.t ≤ 8 }
    ensures { result ≡ placed in_enqueue m.now }
{
    (0..m.n as usize).filter(|i| in_enqueue(m, *i)).count()
}

fn dequeued(m: &Machine) -> usize
    requires { m.now.t ≤ 8 }
    ensures { result ≡ placed in_dequeue m.now }
{
    (0..m.n as usize).filter(|i| in_dequeue(m, *i)).count()
}

fn queued(m: &Machine) -> usize
    requires { in_range m.now ≡ true }
    ensures { result ≡ placed in_queue m.now }
{
    (0..m.n as usize).filter(|i| in_queue(m, *i)).count()
}

// The free total is the count of ones; the other five are counted node by node.
pub fn places_of(m: Machine) -> Places
    requires { in_range m ≡ true }
    ensures { result ≡ places_of m }
{
    Places {
        queue: queued(&m) as u8,
        free: bits::total(m.free) as u8,
        waiting: waiting(&m) as u8,
        held: held(&m) as u8,
        enqueue: enqueued(&m) as u8,
        dequeue: dequeued(&m) as u8,
    }
}
