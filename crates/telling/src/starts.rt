// A start: the queue it gave, and what each line holds then.
use crate::Telling;
use crate::lines::{cached_of, kept_of, node_of};
use crate::shapes::{head_index, line_total};
use crate::text::{At, Fields, Held};
use machine::{Machine, Node};
use std::io::Write;
use std::{fmt, io};

// What a row says of the queue's nodes.
#[derive(Clone, Copy, Debug)]
pub enum Part {
    Items,
    Indices,
}

impl Part {
    fn of(self, v: Node) -> u64 {
        match self {
            Part::Items => v.item as u64,
            Part::Indices => v.index,
        }
    }
}

// The queue, apart by blanks, as the links run from the dummy on; - where there is none.
#[derive(Clone, Copy, Debug)]
pub struct Queue<'a> {
    pub machine: &'a Machine,
    pub part: Part,
}

impl fmt::Display for Queue<'_> {
    fn fmt<W: fmt::Write>(&self, f: &mut fmt::Formatter<W>) -> fmt::Result {
        let m = self.machine;
        let Some(dummy) = node_of(m, m.head) else {
            return write!(f, "-");
        };
        let mut i = dummy.next;
        for turn in 0..64 {
            let Some(v) = node_of(m, i) else {
                return if turn == 0 { write!(f, "-") } else { Ok(()) };
            };
            if turn > 0 {
                write!(f, " ")?;
            }
            write!(f, "{}", self.part.of(v))?;
            i = v.next;
        }
        Ok(())
    }
}

// A content of a line at an event: its place in the line's list.
pub fn content_row<W: Write>(out: &mut W, at: Option<u16>, held: Held, j: usize) -> io::Result<()> {
    writeln!(
        out,
        "content\t{}\t{}\t{j}\t{}",
        At(at),
        held.line,
        Fields(held)
    )
}

// What a line holds after a start: the persisted content, and the cached one where it is another.
fn line_begun<W: Write>(
    t: &mut Telling<W>,
    at: Option<u16>,
    line: u8,
    m: &Machine,
) -> io::Result<()> {
    let kept = kept_of(m, line);
    let cached = cached_of(m, line);
    t.book.begin(line, kept);
    let j = t.book.join(line, cached);
    if !t.columns {
        return Ok(());
    }
    let shape = m.shape();
    content_row(
        &mut t.out,
        at,
        Held {
            shape,
            line,
            content: kept,
        },
        0,
    )?;
    if kept == cached {
        return Ok(());
    }
    content_row(
        &mut t.out,
        at,
        Held {
            shape,
            line,
            content: cached,
        },
        j,
    )
}

// In words: the dummy, the head index, the queue.
pub fn recovered<W: Write>(out: &mut W, m: &Machine) -> io::Result<()> {
    let queue = Queue {
        machine: m,
        part: Part::Items,
    };
    writeln!(
        out,
        "the dummy is node {}, head index {}, queue {queue}",
        m.head,
        head_index(m)
    )
}

fn start_row<W: Write>(t: &mut Telling<W>, at: Option<u16>, m: &Machine) -> io::Result<()> {
    if t.columns {
        let queue = Queue {
            machine: m,
            part: Part::Items,
        };
        return writeln!(t.out, "start\t{}\t{}\t{queue}", At(at), m.head);
    }
    match at {
        None => write!(t.out, "start: ")?,
        Some(event) => write!(t.out, "{event}  crash, and recovery: ")?,
    }
    recovered(&mut t.out, m)
}

// A start at an event that is a crash, or before the first.
pub fn started<W: Write>(t: &mut Telling<W>, at: Option<u16>, m: &Machine) -> io::Result<()> {
    start_row(t, at, m)?;
    for line in 0..line_total(m.shape()) {
        line_begun(t, at, line, m)?;
    }
    Ok(())
}
