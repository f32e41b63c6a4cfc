// What a step did, in words: from the records before and after it.
use machine::{Machine, Thread};
use std::fmt;
use telling::fences::{fence_line, is_over};
use telling::lines::{cached_of, node_of, thread_of};
use telling::shapes::per_desk;
use telling::text::Step;

// What the step of a desk did.
#[derive(Clone, Copy, Debug)]
pub struct Deed<'a> {
    pub desk: u8,
    pub before: &'a Machine,
    pub after: &'a Machine,
}

// A node by its number, or none.
#[derive(Clone, Copy, Debug)]
struct NodeName(u8);

impl fmt::Display for NodeName {
    fn fmt<W: fmt::Write>(&self, f: &mut fmt::Formatter<W>) -> fmt::Result {
        match self.0 {
            Machine::NONE => write!(f, "none"),
            i => write!(f, "node {i}"),
        }
    }
}

fn index_of(m: &Machine, i: u8) -> u64 {
    match node_of(m, i) {
        Some(v) => v.index,
        None => 0,
    }
}

// The head line that the desk flushes and waits for.
fn own_line(m: &Machine) -> &'static str {
    if per_desk(m.shape()) {
        "its head line"
    } else {
        "the line of Head"
    }
}

// A6 and D2.
fn next_read<W: fmt::Write>(
    f: &mut fmt::Formatter<W>,
    m: &Machine,
    of: u8,
    step: u8,
) -> fmt::Result {
    let next = match node_of(m, of) {
        Some(v) => v.next,
        None => Machine::NONE,
    };
    write!(
        f,
        "next of node {of} read: {}, on to {}",
        NodeName(next),
        Step(step)
    )
}

// A11 and A12: Tail becomes another node if it is still `from`.
fn tail_moves<W: fmt::Write>(
    f: &mut fmt::Formatter<W>,
    m: &Machine,
    after: &Machine,
    from: u8,
) -> fmt::Result {
    if m.tail == from {
        return write!(f, "Tail becomes node {}", after.tail);
    }
    write!(f, "Tail is no longer node {from} and stays")
}

fn a7<W: fmt::Write>(
    f: &mut fmt::Formatter<W>,
    b: Thread,
    th: Thread,
    after: &Machine,
) -> fmt::Result {
    if th.step == 0 {
        return write!(
            f,
            "the index of node {} is the largest: the node is free again",
            b.tail
        );
    }
    write!(
        f,
        "index of node {} set to {}",
        b.node,
        index_of(after, b.node)
    )
}

fn a8<W: fmt::Write>(f: &mut fmt::Formatter<W>, b: Thread, th: Thread) -> fmt::Result {
    if th.step == Machine::A9 {
        return write!(f, "node {} becomes the next of node {}", b.node, b.tail);
    }
    write!(f, "next of node {} is no longer none, on to A12", b.tail)
}

fn enqueue_deed<W: fmt::Write>(
    f: &mut fmt::Formatter<W>,
    d: Deed<'_>,
    b: Thread,
    th: Thread,
) -> fmt::Result {
    let node = b.node;
    match b.step {
        Machine::A1 if th.step == 0 => write!(f, "no node is free"),
        Machine::A1 => write!(f, "takes node {}", th.node),
        Machine::A2 => write!(f, "item of node {node} set to {}", b.item),
        Machine::A3 => write!(f, "next of node {node} set to none"),
        Machine::A4 => write!(f, "linked of node {node} set to 0"),
        Machine::A5 => write!(f, "Tail read: node {}", th.tail),
        Machine::A6 => next_read(f, d.before, b.tail, th.step),
        Machine::A7 => a7(f, b, th, d.after),
        Machine::A8 => a8(f, b, th),
        Machine::A9 => write!(f, "linked of node {node} set to 1"),
        Machine::A10 => write!(f, "the line of node {node} is flushed"),
        _ => tail_moves(f, d.before, d.after, b.tail),
    }
}

// D1. Where each desk has a head line, Head is a node number alone.
fn d1<W: fmt::Write>(f: &mut fmt::Formatter<W>, th: Thread, m: &Machine) -> fmt::Result {
    write!(f, "Head read: node {}", th.head)?;
    if per_desk(m.shape()) {
        return Ok(());
    }
    write!(f, ", index {}", th.index)
}

// D4. Where each desk has a head line, what is read of Head is a node number alone.
fn d4<W: fmt::Write>(
    f: &mut fmt::Formatter<W>,
    b: Thread,
    th: Thread,
    after: &Machine,
) -> fmt::Result {
    let alone = per_desk(after.shape());
    if th.step != Machine::D5 {
        let read = if alone { "node" } else { "pair" };
        return write!(f, "Head is no longer the {read} read, back to D1");
    }
    write!(f, "Head becomes node {}", b.next)?;
    if alone {
        return Ok(());
    }
    write!(f, " with index {}", cached_of(after, 0).index)
}

// S3 and S6: the index of node i.
fn index_stored<W: fmt::Write>(f: &mut fmt::Formatter<W>, m: &Machine, i: u8) -> fmt::Result {
    write!(
        f,
        "its head line set to index {}, that of node {i}",
        index_of(m, i)
    )
}

fn d7<W: fmt::Write>(f: &mut fmt::Formatter<W>, b: Thread) -> fmt::Result {
    write!(f, "node {} is held", b.head)?;
    match b.held {
        Machine::NONE => Ok(()),
        held => write!(f, ", node {held}, held before, is retired"),
    }
}

fn dequeue_deed<W: fmt::Write>(
    f: &mut fmt::Formatter<W>,
    d: Deed<'_>,
    b: Thread,
    th: Thread,
) -> fmt::Result {
    match b.step {
        Machine::D1 => d1(f, th, d.before),
        Machine::D2 => next_read(f, d.before, b.head, th.step),
        Machine::D4 => d4(f, b, th, d.after),
        Machine::D5 => write!(f, "item of node {} read: {}", b.next, th.item),
        Machine::D7 => d7(f, b),
        Machine::S3 => index_stored(f, d.before, b.head),
        Machine::S6 => index_stored(f, d.before, b.next),
        _ => write!(f, "{} is flushed", own_line(d.before)),
    }
}

// F10, F3 and F6, of the line.
fn fence_deed<W: fmt::Write>(
    f: &mut fmt::Formatter<W>,
    d: Deed<'_>,
    b: Thread,
    line: u8,
) -> fmt::Result {
    write!(f, "waits at the fence: ")?;
    if is_over(d.before, line, d.desk) {
        return write!(f, "what is persisted is later than the flush and stays");
    }
    match b.step {
        Machine::F10 => write!(f, "the line of node {}", b.node)?,
        _ => write!(f, "{}", own_line(d.before))?,
    }
    write!(f, " is persisted as it was at the flush")
}

impl fmt::Display for Deed<'_> {
    fn fmt<W: fmt::Write>(&self, f: &mut fmt::Formatter<W>) -> fmt::Result {
        let b = thread_of(self.before, self.desk);
        let th = thread_of(self.after, self.desk);
        if let Some(line) = fence_line(self.before.shape(), self.desk, b) {
            return fence_deed(f, *self, b, line);
        }
        if b.step <= Machine::A12 {
            return enqueue_deed(f, *self, b, th);
        }
        dequeue_deed(f, *self, b, th)
    }
}
