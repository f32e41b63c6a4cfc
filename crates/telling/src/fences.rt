// Flushes and fences: the line that a desk flushes and waits for, and whether its fence counts.
use crate::Telling;
use crate::lines::thread_of;
use crate::shapes::{head_line, line_of, node_line};
use image::{Content, Shape};
use machine::{Line, Machine, Thread};

// The line that desk k flushes by its step, where it flushes one.
pub fn flush_line(z: Shape, k: u8, th: Thread) -> Option<u8> {
    match th.step {
        Machine::A10 => node_line(z, th.node),
        Machine::D3 | Machine::D6 => Some(head_line(z, k)),
        _ => None,
    }
}

// The line that desk k waits for at a fence, where it does.
pub fn fence_line(z: Shape, k: u8, th: Thread) -> Option<u8> {
    match th.step {
        Machine::F10 => node_line(z, th.node),
        Machine::F3 | Machine::F6 => Some(head_line(z, k)),
        _ => None,
    }
}

// Whether what is persisted of the line is no earlier than desk k's flush: then its fence does not count.
pub fn is_over(m: &Machine, line: u8, k: u8) -> bool {
    let set = match line_of(m.shape(), line) {
        Line::OfHead(h) => m.over_heads.get(h as usize).copied(),
        Line::OfNode(i) => m.over.get(i as usize).copied(),
    };
    k < 8 && (set.unwrap_or(0) >> k) % 2 == 1
}

// The line's cached content became c: it joins the contents since each flush that is waited for.
pub fn joined_since<W>(t: &mut Telling<W>, m: &Machine, line: u8, c: Content) {
    for k in 0..8 {
        if fence_line(m.shape(), k, thread_of(m, k)) == Some(line) {
            t.book.join_since(k, c);
        }
    }
}
