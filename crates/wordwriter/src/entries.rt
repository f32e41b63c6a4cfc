// The entries of a schedule in words, each into the front of a buffer that has room for the longest line.
ghost use Rattle.std.specs.Prelude.{◌≡◌, true, [], ◌+◌, ◌≤◌, ◌<◌, length};
ghost use Rattle.lists.specs.Find.{pick};
ghost use Rattle.lists.specs.Tab.{over};
ghost use Rattle.answer.specs.Answers.{accepted};
ghost use Rattle.image.specs.Form.{known};
ghost use Rattle.image.specs.Layout.{head_in};
ghost use Rattle.schedule.specs.Layout.{count_in, schedule_shape, event_place, schedule_in, schedule_answer};
ghost use Rattle.spelling.specs.Writing.{head_line, node_line, is_blank_node, follows, run_end, event_entry, entry_of, entries_in};

use crate::texts::{is_step, put_event, put_head, put_node, put_nodes, put_threads};
use codec::event_at;
use image::{Content, Image, Shape, head_lines};
use schedule::Schedule;

// Whether event j is a step like the one before it.
#[tactic(auto, unfolding(spelling::specs::Writing::follows))]
fn is_following(s: &[u8], z: Shape, j: usize) -> bool
    requires { (z ≡ schedule_shape s.now) × (known z.form ≡ true) × (event_place z j + 6 ≤ length s.now) }
    ensures { result ≡ follows s.now j }
{
    if j == 0 {
        return false;
    }
    let e = event_at(s, z, j);
    let f = event_at(s, z, j - 1);
    is_step(e) && is_step(f) && e.number == f.number
}

// Where the run of steps that event j begins ends.
fn run_end(s: &[u8], z: Shape, count: usize, j: usize) -> usize
    requires { (z ≡ schedule_shape s.now) × (count ≡ count_in s.now) × (known z.form ≡ true) × (count ≤ 4096) × (j < count)
        × (event_place z count ≤ length s.now) }
    ensures run { result ≡ run_end s.now j }
    ensures within { (j < result) × (result ≤ 4096) }
{
    for i in j + 1..count {
        if !is_following(s, z, i) {
            return i;
        }
    }
    count
}

fn is_blank(v: Content) -> bool
    ensures { result ≡ is_blank_node v }
{
    v.linked == 0 && v.index == 0 && v.item == 0
}

// Head line k.
fn put_heads(b: &mut [u8], g: Image, k: usize) -> usize
    requires { (k < 8) × (64 ≤ length b.old) }
    ensures put { (result ≡ length (head_line g.form k (head_in g k))) × (b.new ≡ over b.old 0 (head_line g.form k (head_in g k))) }
    ensures room { result ≤ 64 }
{
    let heads = g.heads;
    put_head(b, g.form, k as u32, heads[k])
}

// Node i, unless all of it is zero.
fn put_node_entry(b: &mut [u8], i: usize, v: Content) -> usize
    requires { (i ≤ 64) × (64 ≤ length b.old) }
    ensures put { (result ≡ length (pick (is_blank_node v) [] (node_line i v))) × (b.new ≡ over b.old 0 (pick (is_blank_node v) [] (node_line i v))) }
    ensures room { result ≤ 64 }
{
    if is_blank(v) {
        return 0;
    }
    put_node(b, i as u32, v)
}

// Event j with the steps like it behind it, unless it stands behind one like it.
fn put_event_entry(s: &[u8], z: Shape, count: usize, j: usize, b: &mut [u8]) -> usize
    requires { (z ≡ schedule_shape s.now) × (count ≡ count_in s.now) × (known z.form ≡ true) × (count ≤ 4096) × (j < count)
        × (event_place z count ≤ length s.now) × (64 ≤ length b.old) }
    ensures put { (result ≡ length (event_entry s.now j)) × (b.new ≡ over b.old 0 (event_entry s.now j)) }
    ensures room { result ≤ 64 }
{
    if is_following(s, z, j) {
        return 0;
    }
    let e = event_at(s, z, j);
    let r = run_end(s, z, count, j);
    put_event(b, e, (r - j) as u32)
}

// Entry k of a schedule that is taken up to its events.
pub fn put_entry(s: &[u8], d: Schedule, k: usize, b: &mut [u8]) -> usize
    requires { (accepted (schedule_answer s.now) ≡ true) × (d ≡ schedule_in s.now) × (k < entries_in s.now) × (64 ≤ length b.old) }
    ensures put { (result ≡ length (entry_of s.now k)) × (b.new ≡ over b.old 0 (entry_of s.now k)) }
    ensures room { result ≤ 64 }
{
    let g = d.image;
    let n = g.n;
    if k == 0 {
        return put_nodes(b, n);
    }
    if k == 1 {
        return put_threads(b, g.form, d.t);
    }
    let z = Shape {
        form: g.form,
        n: n,
        t: d.t,
    };
    let h = 2 + head_lines(z);
    if k < h {
        return put_heads(b, g, k - 2);
    }
    let m = n as usize;
    if k < h + m {
        let i = k - h;
        let v = g.nodes[i];
        return put_node_entry(b, i, v);
    }
    put_event_entry(s, z, d.count as usize, k - h - m, b)
}
