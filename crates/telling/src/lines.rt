// What lines hold, and what desks do.
use crate::shapes::line_of;
use image::{Content, Image};
use machine::{Line, Machine, Node, Thread};

// The content of a head line, and of a node's, among all; a blank one where there is none of that number.
fn head_in(heads: &[u64; 8], k: u8) -> Content {
    Content::of_head(heads.get(k as usize).copied().unwrap_or(0))
}

fn node_in(nodes: &[Content; 64], k: u8) -> Content {
    nodes
        .get(k as usize)
        .copied()
        .unwrap_or(Content::of_head(0))
}

// A node of the machine. The number of none, 255, is no node's.
pub fn node_of(m: &Machine, i: u8) -> Option<Node> {
    m.nodes.get(i as usize).copied()
}

pub fn thread_of(m: &Machine, k: u8) -> Thread {
    m.threads
        .get(k as usize)
        .copied()
        .unwrap_or(Thread::idle(Machine::NONE))
}

// The cached content of a line.
pub fn cached_of(m: &Machine, line: u8) -> Content {
    match line_of(m.shape(), line) {
        Line::OfHead(k) => head_in(&m.heads, k),
        Line::OfNode(k) => match node_of(m, k) {
            Some(v) => Content::from(v),
            None => Content::of_head(0),
        },
    }
}

// The persisted content of a line.
pub fn kept_of(m: &Machine, line: u8) -> Content {
    match line_of(m.shape(), line) {
        Line::OfHead(k) => head_in(&m.kept_heads, k),
        Line::OfNode(k) => node_in(&m.kept, k),
    }
}

// What a line has in an image.
pub fn content_in(g: &Image, line: u8) -> Content {
    match line_of(g.shape(), line) {
        Line::OfHead(k) => head_in(&g.heads, k),
        Line::OfNode(k) => node_in(&g.nodes, k),
    }
}
