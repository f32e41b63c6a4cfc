// The lines of a schedule in words, each into the front of a buffer that has room for the longest. Each gives how many bytes it has.
ghost use Rattle.std.specs.Prelude.{◌≡◌, ◌+◌, ◌≤◌, ◌<◌, ◌++◌, length};
ghost use Rattle.lists.specs.Tab.{over};
ghost use Rattle.lists.specs.Text.{text, decimal};
ghost use Rattle.page.specs.Printed.{newline};
ghost use Rattle.spelling.specs.Writing.{threads_line, version_line, head_line, node_line, event_line, is_step};

use image::Content;
use machine::Event;
use printing::{put, put_decimal};

// A word, and a number behind it; gives the place behind them.
fn put_named(b: &mut [u8], at: usize, word: &[u8], x: u32) -> usize
    requires { (at ≤ 64) × (length word.now ≤ 64) × (at + length word.now + 10 ≤ length b.old) }
    ensures put { (result ≡ at + length (word.now ++ decimal x)) × (b.new ≡ over b.old at (word.now ++ decimal x)) }
    ensures room { result ≤ at + length word.now + 10 }
{
    let p = put(b, at, word);
    put_decimal(b, p, x as u64)
}

// The same with a number of up to 64 bits, which needs room for twenty digits: not one function, since a node's line has 64 bytes with ten for its item alone.
fn put_far(b: &mut [u8], at: usize, word: &[u8], x: u64) -> usize
    requires { (at ≤ 64) × (length word.now ≤ 64) × (at + length word.now + 20 ≤ length b.old) }
    ensures put { (result ≡ at + length (word.now ++ decimal x)) × (b.new ≡ over b.old at (word.now ++ decimal x)) }
    ensures room { result ≤ at + length word.now + 20 }
{
    let p = put(b, at, word);
    put_decimal(b, p, x)
}

// A number between two words.
fn put_one(b: &mut [u8], word: &[u8], x: u32, last: &[u8]) -> usize
    requires { (length word.now ≤ 20) × (length last.now ≤ 20) × (64 ≤ length b.old) }
    ensures put { (result ≡ length (word.now ++ decimal x ++ last.now)) × (b.new ≡ over b.old 0 (word.now ++ decimal x ++ last.now)) }
    ensures room { result ≤ 64 }
{
    let p = put_named(b, 0, word, x);
    put(b, p, last)
}

// Two numbers, the second behind a word, and the line's end.
fn put_two(b: &mut [u8], x: u32, word: &[u8], y: u32) -> usize
    requires { (length word.now ≤ 20) × (64 ≤ length b.old) }
    ensures put { (result ≡ length (decimal x ++ word.now ++ decimal y ++ newline)) × (b.new ≡ over b.old 0 (decimal x ++ word.now ++ decimal y ++ newline)) }
    ensures room { result ≤ 64 }
{
    let p = put_named(b, 0, b"", x);
    let q = put_named(b, p, word, y);
    put(b, q, b"\n")
}

pub fn put_nodes(b: &mut [u8], n: u8) -> usize
    requires { 64 ≤ length b.old }
    ensures put { (result ≡ length (text "nodes " ++ decimal n ++ newline)) × (b.new ≡ over b.old 0 (text "nodes " ++ decimal n ++ newline)) }
    ensures room { result ≤ 64 }
{
    put_one(b, b"nodes ", n as u32, b"\n")
}

// T, which says in "UQP" that each desk has a head index.
#[tactic(auto, unfolding(spelling::specs::Writing::threads_line, image::specs::Form::per_desk, lists::specs::Text::text))]
pub fn put_threads(b: &mut [u8], form: u8, t: u8) -> usize
    requires { 64 ≤ length b.old }
    ensures put { (result ≡ length (threads_line form t)) × (b.new ≡ over b.old 0 (threads_line form t)) }
    ensures room { result ≤ 64 }
{
    match form {
        4 => put_one(b, b"desks ", t as u32, b"\n"),
        _ => put_one(b, b"threads ", t as u32, b"\n"),
    }
}

// The version, unless it is 1; gives the place behind it.
fn put_version(b: &mut [u8], form: u8) -> usize
    requires { 64 ≤ length b.old }
    ensures put { (result ≡ length (version_line form)) × (b.new ≡ over b.old 0 (version_line form)) }
    ensures room { result ≤ 20 }
{
    if form == 1 {
        return 0;
    }
    let p = put_named(b, 0, b"version ", form as u32);
    put(b, p, b"\n")
}

// The version and the only head index.
fn put_sole(b: &mut [u8], form: u8, h: u64) -> usize
    requires { 64 ≤ length b.old }
    ensures put { (result ≡ length (version_line form ++ (text "head " ++ decimal h ++ newline)))
        × (b.new ≡ over b.old 0 (version_line form ++ (text "head " ++ decimal h ++ newline))) }
    ensures room { result ≤ 64 }
{
    let p = put_version(b, form);
    let q = put_far(b, p, b"head ", h);
    put(b, q, b"\n")
}

// One of several head indices.
fn put_named_head(b: &mut [u8], k: u32, h: u64) -> usize
    requires { 64 ≤ length b.old }
    ensures put { (result ≡ length (text "head " ++ decimal k ++ text " " ++ decimal h ++ newline))
        × (b.new ≡ over b.old 0 (text "head " ++ decimal k ++ text " " ++ decimal h ++ newline)) }
    ensures room { result ≤ 64 }
{
    let p = put_named(b, 0, b"head ", k);
    let q = put_far(b, p, b" ", h);
    put(b, q, b"\n")
}

// Head line k.
#[tactic(auto, unfolding(spelling::specs::Writing::head_line, image::specs::Form::per_desk, lists::specs::Text::text))]
pub fn put_head(b: &mut [u8], form: u8, k: u32, h: u64) -> usize
    requires { 64 ≤ length b.old }
    ensures put { (result ≡ length (head_line form k h)) × (b.new ≡ over b.old 0 (head_line form k h)) }
    ensures room { result ≤ 64 }
{
    match form {
        4 => put_named_head(b, k, h),
        _ => put_sole(b, form, h),
    }
}

// Node i with its content.
pub fn put_node(b: &mut [u8], i: u32, v: Content) -> usize
    requires { 64 ≤ length b.old }
    ensures put { (result ≡ length (node_line i v)) × (b.new ≡ over b.old 0 (node_line i v)) }
    ensures room { result ≤ 64 }
{
    let p = put_named(b, 0, b"node ", i);
    let q = put_named(b, p, b" ", v.linked as u32);
    let s = put_far(b, q, b" ", v.index);
    let u = put_named(b, s, b" ", v.item);
    put(b, u, b"\n")
}

// What has no word of its own.
fn put_plain(b: &mut [u8], e: Event) -> usize
    requires { 64 ≤ length b.old }
    ensures put { (result ≡ length (text "event " ++ decimal e.kind ++ text " " ++ decimal e.number ++ text " " ++ decimal e.item ++ newline))
        × (b.new ≡ over b.old 0 (text "event " ++ decimal e.kind ++ text " " ++ decimal e.number ++ text " " ++ decimal e.item ++ newline)) }
    ensures room { result ≤ 64 }
{
    let p = put_named(b, 0, b"event ", e.kind as u32);
    let q = put_named(b, p, b" ", e.number as u32);
    let s = put_named(b, q, b" ", e.item);
    put(b, s, b"\n")
}

pub fn is_step(e: Event) -> bool
    ensures { result ≡ is_step e }
{
    e.kind == 3 && e.item == 0
}

// r like events.
#[tactic(auto, unfolding(spelling::specs::Writing::event_line, lists::specs::Text::text))]
pub fn put_event(b: &mut [u8], e: Event, r: u32) -> usize
    requires { 64 ≤ length b.old }
    ensures put { (result ≡ length (event_line e r)) × (b.new ≡ over b.old 0 (event_line e r)) }
    ensures room { result ≤ 64 }
{
    let n = e.number as u32;
    match e.kind {
        1 => put_two(b, n, b" enqueue ", e.item),
        2 if e.item == 0 => put_one(b, b"", n, b" dequeue\n"),
        3 if e.item == 0 => put_two(b, n, b" step ", r),
        4 if e.item == 0 => put_one(b, b"write-back ", n, b"\n"),
        5 if e.number == 0 && e.item == 0 => put(b, 0, b"crash\n"),
        _ => put_plain(b, e),
    }
}
