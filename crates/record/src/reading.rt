// A record read from bytes that are long enough.
ghost use Rattle.std.specs.Prelude.{◌≡◌, ◌+◌, ◌≤◌, length};
ghost use Rattle.lists.specs.Tab.{front};
ghost use Rattle.image.specs.Layout.{no_contents, no_heads};
ghost use Rattle.machine.specs.Record.{blank_nodes, idle_threads, no_flushed, no_sets};
ghost use Rattle.record.specs.Layout.{record_size, read_node, read_kept, read_thread, long_in, node_in, kept_in, thread_in, read_flush, flush_in, set_in, record_in};

use codec::{long_at, word_at};
use image::{Content, no_contents, no_heads};
use machine::blank::{blank_nodes, idle_threads, no_flushed, no_sets};
use machine::{Machine, Node, Thread};

fn node_at(s: &[u8], at: usize) -> Node
    requires { at + 28 ≤ length s.now }
    ensures { result ≡ read_node s.now at }
{
    let item = word_at(s, at);
    let index = long_at(s, at + 6);
    Node {
        item,
        next: s[at + 4],
        linked: s[at + 5],
        index,
        waits: s[at + 14],
    }
}

fn kept_at(s: &[u8], at: usize) -> Content
    requires { at + 28 ≤ length s.now }
    ensures { result ≡ read_kept s.now at }
{
    let index = long_at(s, at + 16);
    let item = word_at(s, at + 24);
    Content {
        linked: s[at + 15],
        index,
        item,
    }
}

fn thread_at(s: &[u8], at: usize) -> Thread
    requires { at + 18 ≤ length s.now }
    ensures { result ≡ read_thread s.now at }
{
    let index = long_at(s, at + 4);
    let item = word_at(s, at + 13);
    Thread {
        step: s[at],
        node: s[at + 1],
        tail: s[at + 2],
        head: s[at + 3],
        index,
        next: s[at + 12],
        item,
        held: s[at + 17],
    }
}

// The eight indices from a place on: those of the head lines, or their persisted copies.
fn longs_in(s: &[u8], at: usize) -> [u64; 8]
    requires { (at ≤ 82) × (record_size ≤ length s.now) }
    ensures { result ≡ front (long_in s.now at) 8 no_heads }
{
    let mut l = no_heads();
    for i in 0..8 {
        l[i] = long_at(s, at + i * 8);
    }
    l
}

fn nodes_in(s: &[u8]) -> [Node; 64]
    requires { record_size ≤ length s.now }
    ensures { result ≡ front (node_in s.now) 64 blank_nodes }
{
    let mut l = blank_nodes();
    for i in 0..64 {
        l[i] = node_at(s, 146 + i * 28);
    }
    l
}

fn kept_in(s: &[u8]) -> [Content; 64]
    requires { record_size ≤ length s.now }
    ensures { result ≡ front (kept_in s.now) 64 no_contents }
{
    let mut l = no_contents();
    for i in 0..64 {
        l[i] = kept_at(s, 146 + i * 28);
    }
    l
}

fn threads_in(s: &[u8]) -> [Thread; 8]
    requires { record_size ≤ length s.now }
    ensures { result ≡ front (thread_in s.now) 8 idle_threads }
{
    let mut l = idle_threads();
    for i in 0..8 {
        l[i] = thread_at(s, 1938 + i * 18);
    }
    l
}

fn flush_at(s: &[u8], at: usize) -> Content
    requires { at + 13 ≤ length s.now }
    ensures { result ≡ read_flush s.now at }
{
    let index = long_at(s, at + 1);
    let item = word_at(s, at + 9);
    Content {
        linked: s[at],
        index,
        item,
    }
}

// What each thread has flushed.
fn flushed_in(s: &[u8]) -> [Content; 8]
    requires { record_size ≤ length s.now }
    ensures { result ≡ front (flush_in s.now) 8 no_flushed }
{
    let mut l = no_flushed();
    for i in 0..8 {
        l[i] = flush_at(s, 2083 + i * 13);
    }
    l
}

// The sets of threads from a place on: one for each thread, each head line or each node.
fn sets_in<const N: usize>(s: &[u8], at: usize) -> [u8; N]
    requires { (at + N ≤ record_size) × (record_size ≤ length s.now) }
    ensures { result ≡ front (set_in s.now at) N (no_sets N) }
{
    let mut l = no_sets();
    for i in 0..N {
        l[i] = s[at + i];
    }
    l
}

pub fn record_in(s: &[u8]) -> Machine
    requires { record_size ≤ length s.now }
    ensures { result ≡ record_in s.now }
{
    let free = long_at(s, 10);
    let heads = longs_in(s, 18);
    let kept_heads = longs_in(s, 82);
    let nodes = nodes_in(s);
    let kept = kept_in(s);
    let threads = threads_in(s);
    let flushed = flushed_in(s);
    let late = sets_in(s, 2187);
    let over_heads = sets_in(s, 2195);
    let over = sets_in(s, 2203);
    Machine {
        form: s[5],
        n: s[6],
        t: s[7],
        head: s[8],
        heads,
        tail: s[9],
        free,
        nodes,
        kept_heads,
        kept,
        threads,
        last: s[2082],
        flushed,
        late,
        over_heads,
        over,
    }
}
