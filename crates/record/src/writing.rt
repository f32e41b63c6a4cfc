// A record written into a buffer that is long enough.
ghost use Rattle.std.specs.Prelude.{◌≡◌, ◌+◌, ◌≤◌, length};
ghost use Rattle.lists.specs.Tab.{over, joined};
ghost use Rattle.record.specs.Layout.{record_size, le8, head_bytes, node_bytes, thread_bytes, long_part, node_part, thread_part, core_bytes, flush_bytes, flush_part, set_bytes, record_bytes};

use image::Content;
use machine::{Machine, Node, Thread};

// The bytes a over those of b from a place on.
fn copy(b: &mut [u8], at: usize, a: &[u8])
    requires { at + length a.now ≤ length b.old }
    ensures { b.new ≡ over b.old at a.now }
{
    b[at..at + a.len()].copy_from_slice(a);
}

fn node_bytes(v: Node, p: Content) -> [u8; 28]
    ensures { result ≡ node_bytes v p }
{
    [
        (v.item % 256) as u8,
        (v.item / 256 % 256) as u8,
        (v.item / 256 / 256 % 256) as u8,
        (v.item / 256 / 256 / 256 % 256) as u8,
        v.next,
        v.linked,
        (v.index % 256) as u8,
        (v.index / 256 % 256) as u8,
        (v.index / 256 / 256 % 256) as u8,
        (v.index / 256 / 256 / 256 % 256) as u8,
        (v.index / 256 / 256 / 256 / 256 % 256) as u8,
        (v.index / 256 / 256 / 256 / 256 / 256 % 256) as u8,
        (v.index / 256 / 256 / 256 / 256 / 256 / 256 % 256) as u8,
        (v.index / 256 / 256 / 256 / 256 / 256 / 256 / 256 % 256) as u8,
        v.waits,
        p.linked,
        (p.index % 256) as u8,
        (p.index / 256 % 256) as u8,
        (p.index / 256 / 256 % 256) as u8,
        (p.index / 256 / 256 / 256 % 256) as u8,
        (p.index / 256 / 256 / 256 / 256 % 256) as u8,
        (p.index / 256 / 256 / 256 / 256 / 256 % 256) as u8,
        (p.index / 256 / 256 / 256 / 256 / 256 / 256 % 256) as u8,
        (p.index / 256 / 256 / 256 / 256 / 256 / 256 / 256 % 256) as u8,
        (p.item % 256) as u8,
        (p.item / 256 % 256) as u8,
        (p.item / 256 / 256 % 256) as u8,
        (p.item / 256 / 256 / 256 % 256) as u8,
    ]
}

fn thread_bytes(v: Thread) -> [u8; 18]
    ensures { result ≡ thread_bytes v }
{
    [
        v.step,
        v.node,
        v.tail,
        v.head,
        (v.index % 256) as u8,
        (v.index / 256 % 256) as u8,
        (v.index / 256 / 256 % 256) as u8,
        (v.index / 256 / 256 / 256 % 256) as u8,
        (v.index / 256 / 256 / 256 / 256 % 256) as u8,
        (v.index / 256 / 256 / 256 / 256 / 256 % 256) as u8,
        (v.index / 256 / 256 / 256 / 256 / 256 / 256 % 256) as u8,
        (v.index / 256 / 256 / 256 / 256 / 256 / 256 / 256 % 256) as u8,
        v.next,
        (v.item % 256) as u8,
        (v.item / 256 % 256) as u8,
        (v.item / 256 / 256 % 256) as u8,
        (v.item / 256 / 256 / 256 % 256) as u8,
        v.held,
    ]
}

fn head_bytes(m: Machine) -> [u8; 18]
    ensures { result ≡ head_bytes m }
{
    [
        85,
        81,
        77,
        4,
        0,
        m.form,
        m.n,
        m.t,
        m.head,
        m.tail,
        (m.free % 256) as u8,
        (m.free / 256 % 256) as u8,
        (m.free / 256 / 256 % 256) as u8,
        (m.free / 256 / 256 / 256 % 256) as u8,
        (m.free / 256 / 256 / 256 / 256 % 256) as u8,
        (m.free / 256 / 256 / 256 / 256 / 256 % 256) as u8,
        (m.free / 256 / 256 / 256 / 256 / 256 / 256 % 256) as u8,
        (m.free / 256 / 256 / 256 / 256 / 256 / 256 / 256 % 256) as u8,
    ]
}

fn long_bytes(x: u64) -> [u8; 8]
    ensures { result ≡ le8 x }
{
    [
        (x % 256) as u8,
        (x / 256 % 256) as u8,
        (x / 256 / 256 % 256) as u8,
        (x / 256 / 256 / 256 % 256) as u8,
        (x / 256 / 256 / 256 / 256 % 256) as u8,
        (x / 256 / 256 / 256 / 256 / 256 % 256) as u8,
        (x / 256 / 256 / 256 / 256 / 256 / 256 % 256) as u8,
        (x / 256 / 256 / 256 / 256 / 256 / 256 / 256 % 256) as u8,
    ]
}

// Eight indices from a place on: those of the head lines, or their persisted copies.
fn put_longs(b: &mut [u8], at: usize, l: [u64; 8])
    requires { (at ≤ 82) × (record_size ≤ length b.old) }
    ensures { b.new ≡ over b.old at (joined (long_part l) 8) }
{
    for i in 0..8 {
        let a = long_bytes(l[i]);
        copy(b, at + i * 8, &a);
    }
}

fn put_nodes(b: &mut [u8], m: Machine)
    requires { record_size ≤ length b.old }
    ensures { b.new ≡ over b.old 146 (joined (node_part m) 64) }
{
    for i in 0..64 {
        let a = node_bytes(m.nodes[i], m.kept[i]);
        copy(b, 146 + i * 28, &a);
    }
}

fn put_threads(b: &mut [u8], m: Machine)
    requires { record_size ≤ length b.old }
    ensures { b.new ≡ over b.old 1938 (joined (thread_part m) 8) }
{
    for i in 0..8 {
        let a = thread_bytes(m.threads[i]);
        copy(b, 1938 + i * 18, &a);
    }
}

fn flush_bytes(c: Content) -> [u8; 13]
    ensures { result ≡ flush_bytes c }
{
    [
        c.linked,
        (c.index % 256) as u8,
        (c.index / 256 % 256) as u8,
        (c.index / 256 / 256 % 256) as u8,
        (c.index / 256 / 256 / 256 % 256) as u8,
        (c.index / 256 / 256 / 256 / 256 % 256) as u8,
        (c.index / 256 / 256 / 256 / 256 / 256 % 256) as u8,
        (c.index / 256 / 256 / 256 / 256 / 256 / 256 % 256) as u8,
        (c.index / 256 / 256 / 256 / 256 / 256 / 256 / 256 % 256) as u8,
        (c.item % 256) as u8,
        (c.item / 256 % 256) as u8,
        (c.item / 256 / 256 % 256) as u8,
        (c.item / 256 / 256 / 256 % 256) as u8,
    ]
}

// What each thread has flushed.
fn put_flushed(b: &mut [u8], l: [Content; 8])
    requires { record_size ≤ length b.old }
    ensures { b.new ≡ over b.old 2083 (joined (flush_part l) 8) }
{
    for i in 0..8 {
        let c = l[i];
        let a = flush_bytes(c);
        copy(b, 2083 + i * 13, &a);
    }
}

// The sets of threads, each a byte.
fn put_sets(b: &mut [u8], late: [u8; 8], heads: [u8; 8], nodes: [u8; 64])
    requires { record_size ≤ length b.old }
    ensures { b.new ≡ over (over (over b.old 2187 (set_bytes late 8)) 2195 (set_bytes heads 8)) 2203 (set_bytes nodes 64) }
{
    copy(b, 2187, &late);
    copy(b, 2195, &heads);
    copy(b, 2203, &nodes);
}

// All but what is known of flushes.
fn put_core(b: &mut [u8], m: Machine)
    requires { record_size ≤ length b.old }
    ensures { b.new ≡ over b.old 0 (core_bytes m) }
{
    let heads = m.heads;
    let kept_heads = m.kept_heads;
    let a = head_bytes(m);
    copy(b, 0, &a);
    put_longs(b, 18, heads);
    put_longs(b, 82, kept_heads);
    put_nodes(b, m);
    put_threads(b, m);
    b[2082] = m.last;
}

pub fn put_record(b: &mut [u8], m: Machine)
    requires { record_size ≤ length b.old }
    ensures { b.new ≡ over b.old 0 (record_bytes m) }
{
    let flushed = m.flushed;
    let late = m.late;
    let over_heads = m.over_heads;
    let over = m.over;
    put_core(b, m);
    put_flushed(b, flushed);
    put_sets(b, late, over_heads, over);
}
