// Request 104: a thread flushes a line, and waits for that at a fence. Sets of threads are words.
ghost use Rattle.std.specs.Prelude.{◌≡◌, ℕ, ◌<◌, ◌≤◌, ◌^◌};
ghost use Rattle.machine.specs.Flush.{flush, fence};
ghost use Rattle.hands.specs.Places.{HasPlace};
ghost use Rattle.hands.specs.Sets.{late_of, late_from, over_with, over_below};

use image::Content;
use machine::{Line, Machine};

// Who has flushed since thread u last did, once thread k flushes. It was w.
fn late_of(w: u8, u: usize, k: usize) -> u8
    requires { k < 8 }
    ensures { result ≡ late_of w u k }
{
    if u == k {
        return 0;
    }
    bits::with_bit8(w, k as u32)
}

// The same of every thread below t.
fn late_from(late: [u8; 8], t: u8, k: usize) -> [u8; 8]
    requires { (k < 8) × (t ≤ 8) }
    ensures { result ≡ late_from late k t }
{
    let mut r = late;
    for u in 0..t as usize {
        r[u] = late_of(late[u], u, k);
    }
    r
}

// The set r of threads below u, with thread u in it where it is over the line already or has not flushed since.
fn over_with(over: u8, late: u8, u: usize, r: u8) -> u8
    requires { (u < 8) × (r < 2 ^ u) }
    ensures { result ≡ over_with over late u r }
{
    if bits::is_in8(over, u as u32) {
        return bits::with_bit8(r, u as u32);
    }
    if bits::is_in8(late, u as u32) {
        return r;
    }
    bits::with_bit8(r, u as u32)
}

// Of the threads below t those that are over the line, and those that have not flushed since.
fn over_below(over: u8, late: u8, t: u8) -> u8
    requires { t ≤ 8 }
    ensures { result ≡ over_below over late t }
{
    let mut r = 0;
    for u in 0..t as usize {
        r = over_with(over, late, u, r);
    }
    r
}

// Thread k flushes line l: what it has flushed is the present content.
pub fn flush_line(m: Machine, k: usize, l: Line) -> Machine
    requires { (k < 8) × (m.t ≤ 8) × HasPlace l }
    ensures { result ≡ flush m k l }
{
    let before = m.late;
    let late = late_from(before, m.t, k);
    let mut r = m;
    r.late = late;
    match l {
        Line::OfHead(x) => {
            let h = x as usize;
            let w = bits::without_bit8(r.over_heads[h], k as u32);
            r.flushed[k] = Content::of_head(r.heads[h]);
            r.over_heads[h] = w;
            r
        }
        Line::OfNode(x) => {
            let i = x as usize;
            let w = bits::without_bit8(r.over[i], k as u32);
            r.flushed[k] = Content::from(r.nodes[i]);
            r.over[i] = w;
            r
        }
    }
}

// Thread k's fence of line l: what it has flushed is persisted, where nothing later is already.
pub fn fence_line(m: Machine, k: usize, l: Line) -> Machine
    requires { (k < 8) × (m.t ≤ 8) × HasPlace l }
    ensures { result ≡ fence m k l }
{
    let c = m.flushed[k];
    match l {
        Line::OfHead(x) => {
            let h = x as usize;
            if bits::is_in8(m.over_heads[h], k as u32) {
                return m;
            }
            let w = over_below(m.over_heads[h], m.late[k], m.t);
            let mut r = m;
            r.kept_heads[h] = c.index;
            r.over_heads[h] = w;
            r
        }
        Line::OfNode(x) => {
            let i = x as usize;
            if bits::is_in8(m.over[i], k as u32) {
                return m;
            }
            let w = over_below(m.over[i], m.late[k], m.t);
            let mut r = m;
            r.kept[i] = c;
            r.over[i] = w;
            r
        }
    }
}
