// The bytes of the schedule that a text says.
ghost use Rattle.std.specs.Prelude.{◌≡◌, true, ◌+◌, ◌*◌, ◌≤◌, length, replicate, ltb};
ghost use Rattle.lists.specs.Find.{pick};
ghost use Rattle.lists.specs.Tab.{over};
ghost use Rattle.image.specs.Form.{known, head_lines};
ghost use Rattle.spelling.specs.Layout.{head_start, node_start, events_start, head_said, node_said, event_said, size_of};
ghost use Rattle.spelling.specs.Reading.{blank_file, times, put_by, reach_by};

use crate::layout::{
    EVENT, head_start, node_start, put_event_at, put_header, put_node_at, shape_said,
};
use codec::put_index;
use image::{Shape, head_lines};
use spelling::{Act, Survey};

// The event d times.
fn put_times(b: &mut [u8], at: usize, kind: u64, number: u64, item: u64, d: usize)
    requires { (d ≤ 100000) × (at + d * 6 ≤ length b.old) }
    ensures { b.new ≡ over b.old at (times d (event_said kind number item)) }
{
    for i in 0..d {
        put_event_at(b, at + i * EVENT, kind, number, item);
    }
}

// The index of head line k, where there is such a head line.
fn put_one_head(b: &mut [u8], g: Shape, k: u64, index: u64)
    requires { (known g.form ≡ true) × (node_start g 0 ≤ length b.old) }
    ensures { b.new ≡ pick (ltb k (head_lines g)) (over b.old (head_start g.form k) (head_said g.form index)) b.old }
{
    if head_lines(g) as u64 <= k {
        return;
    }
    let at = head_start(g.form, k as usize);
    put_index(b, g.form, at, index);
}

// Node i, where there is such a node.
fn put_one_node(b: &mut [u8], g: Shape, i: u64, linked: u64, index: u64, item: u64)
    requires { (known g.form ≡ true) × (events_start g ≤ length b.old) }
    ensures { b.new ≡ pick (ltb i g.n) (over b.old (node_start g i) (node_said g.form linked index item)) b.old }
{
    if (g.n as u64) <= i {
        return;
    }
    let at = node_start(g, i as usize);
    put_node_at(b, g.form, at, linked, index, item);
}

// What a line puts into the first z bytes; gives up to where the events then reach.
#[tactic(auto, unfolding(spelling::specs::Reading::put_by, spelling::specs::Reading::reach_by))]
pub fn put_act(b: &mut [u8], g: Shape, z: usize, p: usize, a: Act) -> usize
    requires { (known g.form ≡ true) × (z ≤ length b.old) × (p ≤ z) × (z ≤ 500000) × (events_start g ≤ z) }
    ensures reach { result ≡ reach_by z p a }
    ensures bytes { b.new ≡ put_by g z b.old p a }
    ensures within { result ≤ z }
{
    match a {
        Act::Head(named, index) => {
            put_one_head(b, g, named.unwrap_or(0), index);
            p
        }
        Act::Node(i, linked, index, item) => {
            put_one_node(b, g, i, linked, index, item);
            p
        }
        Act::Events(kind, number, item, times) => {
            let most = ((z - p) / EVENT) as u64;
            if most < times {
                return p;
            }
            put_times(b, p, kind, number, item, times as usize);
            p + (times as usize) * EVENT
        }
        _ => p,
    }
}

fn put_zeros(b: &mut [u8], at: usize, n: usize)
    requires { at + n ≤ length b.old }
    ensures { b.new ≡ over b.old at (replicate n 0) }
{
    b[at..at + n].fill(0);
}

// The schedule with zeros for its head lines, nodes and events.
pub fn put_blank(b: &mut [u8], v: Survey)
    requires { (known v.form ≡ true) × (v.count ≤ 65535) × (size_of v ≤ length b.old) }
    ensures { b.new ≡ over b.old 0 (blank_file v) }
{
    put_header(b, v);
    let g = shape_said(v);
    let first = head_start(g.form, 0);
    let size = node_start(g, g.n as usize) + (v.count as usize) * EVENT;
    put_zeros(b, first, size - first);
}
