// Refusal 18: whether a machine record is within its ranges; and how many of its nodes are in each of the six places.
// For the crates above: in_range, places_of, used_by.

#![tactic(auto)]

ghost use Rattle.std.specs.Prelude.{◌≡◌, Bool, true, false, not, ◌≤◌, ◌<◌, ◌^◌, ltb, eqb};
ghost use Rattle.lists.specs.Find.{any};
ghost use Rattle.machine.specs.Range.{ranges_fit, in_range, thread_fits, next_fits};
ghost use Rattle.range.specs.Parts.{bad_node, bad_thread, sizes_in, ends_in, link_in, read_in, node_in, step_in, used_by};

use image::Content;
use machine::{Machine, Node, Thread};

mod flushes;
mod indices;
pub mod place;

use flushes::flushes_fit;
use indices::form_fits;
pub use place::places_of;

// Which of the four numbers of a thread its step uses, and which node its operation owns.
#[derive(Clone, Copy)]
pub struct Used {
    pub own: bool,
    pub tail: bool,
    pub head: bool,
    pub next: bool,
    pub enqueue: bool,
    pub dequeue: bool,
}

// N is 2 to 64, T is 1 to 8.
fn sizes_fit(n: u8, t: u8) -> bool
    ensures { result ≡ sizes_in n t }
{
    image::nodes_fit(n) && image::threads_fit(t)
}

// Head, Tail and the one last handed out are nodes.
fn ends_fit(n: u8, head: u8, tail: u8, last: u8) -> bool
    ensures { result ≡ ends_in n head tail last }
{
    head < n && tail < n && last < n
}

// A node number, or none.
fn is_link(n: u8, x: u8) -> bool
    ensures { result ≡ link_in n x }
{
    x == 255 || x < n
}

// What a step uses is a node; what it does not may be none.
fn read_fits(n: u8, used: bool, x: u8) -> bool
    ensures { result ≡ read_in n used x }
{
    if used { x < n } else { is_link(n, x) }
}

// The set x has numbers below n only: 2 to the 64th does not fit a word, so that one stands apart.
fn set_fits(x: u64, n: u8) -> bool
    requires { n ≤ 64 }
    ensures { result ≡ ltb x (2 ^ n) }
{
    n == 64 || x < (1u64 << n)
}

fn node_fits(n: u8, t: u8, v: Node, p: Content) -> bool
    requires { t ≤ 8 }
    ensures { result ≡ node_in n t v p }
{
    is_link(n, v.next) && v.linked <= 1 && p.linked <= 1 && set_fits(v.waits as u64, t)
}

fn nodes_fit(m: &Machine) -> bool
    requires { (m.now.n ≤ 64) × (m.now.t ≤ 8) }
    ensures { result ≡ not (any (bad_node m.now) m.now.n) }
{
    (0..m.n as usize).all(|i| node_fits(m.n, m.t, m.nodes[i], m.kept[i]))
}

// A step that uses none of the four, of an operation that owns no node.
const NOTHING: Used = Used {
    own: false,
    tail: false,
    head: false,
    next: false,
    enqueue: false,
    dequeue: false,
};

// The step number decides: which of the thread's own node, t, the head read and the next read the step uses;
// its enqueue owns the node (before its A8), its dequeue owns the head read (between D4 and D7).
pub fn used_by(s: u8) -> Used
    ensures { result ≡ used_by s }
{
    match s {
        0 | Machine::A1 => NOTHING,
        Machine::A2 | Machine::A3 | Machine::A4 => Used {
            own: true,
            enqueue: true,
            ..NOTHING
        },
        Machine::A5 => Used {
            enqueue: true,
            ..NOTHING
        },
        Machine::A6 => Used {
            tail: true,
            enqueue: true,
            ..NOTHING
        },
        Machine::A7 | Machine::A8 => Used {
            own: true,
            tail: true,
            enqueue: true,
            ..NOTHING
        },
        Machine::A9 | Machine::A10 => Used {
            own: true,
            ..NOTHING
        },
        Machine::A11 => Used {
            own: true,
            tail: true,
            ..NOTHING
        },
        Machine::A12 => Used {
            tail: true,
            enqueue: true,
            ..NOTHING
        },
        Machine::F10 => Used {
            own: true,
            ..NOTHING
        },
        Machine::D1 => NOTHING,
        Machine::D2 | Machine::S3 => Used {
            head: true,
            ..NOTHING
        },
        Machine::D3 | Machine::F3 => NOTHING,
        Machine::D4 => Used {
            head: true,
            next: true,
            ..NOTHING
        },
        Machine::D5 | Machine::S6 => Used {
            next: true,
            dequeue: true,
            ..NOTHING
        },
        Machine::D6 | Machine::F6 => Used {
            dequeue: true,
            ..NOTHING
        },
        Machine::D7 => Used {
            head: true,
            dequeue: true,
            ..NOTHING
        },
        25..=255 => NOTHING,
    }
}

// A machine of that form has a step of that number: S3 and S6 are those of each desk with an index line alone.
fn is_step(form: u8, s: u8) -> bool
    ensures { result ≡ step_in form s }
{
    if s <= Machine::D7 {
        true
    } else if s <= Machine::S6 {
        form == 4
    } else {
        s <= Machine::F6
    }
}

// At A12 t's next is a node.
fn after_fits(m: &Machine, v: Thread) -> bool
    requires { (m.now.n ≤ 64) × (v.step ≡ 12 → v.tail < m.now.n) }
    ensures { result ≡ next_fits m.now (eqb v.step 12) v.tail }
{
    v.step != Machine::A12 || m.nodes[v.tail as usize].next != 255
}

fn thread_fits(m: &Machine, k: usize) -> bool
    requires { (k < 8) × (m.now.n ≤ 64) }
    ensures { result ≡ thread_fits m.now k }
{
    let v = m.threads[k];
    let u = used_by(v.step);
    is_step(m.form, v.step)
        && read_fits(m.n, u.own, v.node)
        && read_fits(m.n, u.tail, v.tail)
        && read_fits(m.n, u.head, v.head)
        && read_fits(m.n, u.next, v.next)
        && is_link(m.n, v.held)
        && after_fits(m, v)
}

fn threads_fit(m: &Machine) -> bool
    requires { (m.now.n ≤ 64) × (m.now.t ≤ 8) }
    ensures { result ≡ not (any (bad_thread m.now) m.now.t) }
{
    (0..m.t as usize).all(|k| thread_fits(m, k))
}

// N, T, every node, thread and step number and every set is in range, and each thread's next step has the nodes it uses.
fn ranges_fit(m: &Machine) -> bool
    ensures { result ≡ ranges_fit m.now }
{
    sizes_fit(m.n, m.t)
        && ends_fit(m.n, m.head, m.tail, m.last)
        && set_fits(m.free, m.n)
        && nodes_fit(m)
        && threads_fit(m)
}

// 18: all of that, a form that is read, every index within its width, and what is known of flushes.
pub fn in_range(m: Machine) -> bool
    ensures { result ≡ in_range m }
{
    ranges_fit(&m) && form_fits(&m) && flushes_fit(&m)
}
