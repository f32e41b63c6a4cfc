// Events: what each did to desks and lines.
use crate::steps::Deed;
use answer::Reply;
use machine::{Event, Machine};
use std::io::Write;
use std::{fmt, io};
use telling::Telling;
use telling::fences::{fence_line, flush_line, is_over, joined_since};
use telling::lines::{cached_of, thread_of};
use telling::shapes::line_total;
use telling::starts::{content_row, started};
use telling::text::{Held, LineName, LineWords, Step};

// An event of the run, which led from one record to the next.
#[derive(Clone, Copy, Debug)]
pub struct Turn<'a> {
    pub number: u16,
    pub event: Event,
    pub before: &'a Machine,
    pub after: &'a Machine,
    pub reply: Reply,
}

fn begin<W: Write>(t: &mut Telling<W>, turn: Turn<'_>) -> io::Result<()> {
    let i = turn.number;
    let e = turn.event;
    let desk = e.number;
    match (e.kind, t.columns) {
        (1, true) => writeln!(t.out, "begin\t{i}\t{desk}\tenqueue\t{}", e.item),
        (1, false) => writeln!(t.out, "{i}  desk {desk} begins an enqueue of {}", e.item),
        (_, true) => writeln!(t.out, "begin\t{i}\t{desk}\tdequeue\t-"),
        (_, false) => writeln!(t.out, "{i}  desk {desk} begins a dequeue"),
    }
}

// The line changed: in rows with its place, in words behind the step.
fn changed<W: Write>(t: &mut Telling<W>, turn: Turn<'_>, line: u8) -> io::Result<()> {
    let content = cached_of(turn.after, line);
    if content == cached_of(turn.before, line) {
        return Ok(());
    }
    let j = t.book.join(line, content);
    joined_since(t, turn.before, line, content);
    let shape = turn.after.shape();
    let held = Held {
        shape,
        line,
        content,
    };
    if t.columns {
        return content_row(&mut t.out, Some(turn.number), held, j);
    }
    write!(t.out, "; {} is now {held}", LineName { shape, line })
}

// A10, D3 and D6: the contents from here on are kept apart until the fence.
fn flushes<W: Write>(t: &mut Telling<W>, turn: Turn<'_>, line: u8, step: u8) -> io::Result<()> {
    let i = turn.number;
    t.book
        .flushed(turn.event.number, cached_of(turn.before, line), i);
    if !t.columns {
        return Ok(());
    }
    writeln!(t.out, "flush\t{i}\t{line}\t{}", Step(step))
}

// F10, F3 and F6: the line's list begins with the content at the flush, unless what is persisted is later.
fn waits<W: Write>(t: &mut Telling<W>, turn: Turn<'_>, line: u8, step: u8) -> io::Result<()> {
    let desk = turn.event.number;
    if is_over(turn.before, line, desk) {
        return Ok(());
    }
    t.book.fenced(desk, line);
    if !t.columns {
        return Ok(());
    }
    let flush = t.book.flush_of(desk).event;
    writeln!(
        t.out,
        "persist\t{}\t{line}\t{}\t{flush}",
        turn.number,
        Step(step)
    )
}

// What the desk's step did to the line that it flushes or waits for.
fn assured<W: Write>(t: &mut Telling<W>, turn: Turn<'_>) -> io::Result<()> {
    let z = turn.before.shape();
    let desk = turn.event.number;
    let th = thread_of(turn.before, desk);
    if let Some(line) = flush_line(z, desk, th) {
        return flushes(t, turn, line, th.step);
    }
    if let Some(line) = fence_line(z, desk, th) {
        return waits(t, turn, line, th.step);
    }
    Ok(())
}

// What an operation answers, in a sentence.
#[derive(Clone, Copy, Debug)]
struct ReplyWords(Reply);

impl fmt::Display for ReplyWords {
    fn fmt<W: fmt::Write>(&self, f: &mut fmt::Formatter<W>) -> fmt::Result {
        match self.0 {
            Reply::Taken => Ok(()),
            Reply::Done => write!(f, "Done"),
            Reply::Full => write!(f, "Full"),
            Reply::WornOut => write!(f, "Worn out"),
            Reply::Item(item) => write!(f, "{item}"),
            Reply::Empty => write!(f, "Empty"),
        }
    }
}

fn answered<W: Write>(t: &mut Telling<W>, turn: Turn<'_>) -> io::Result<()> {
    let i = turn.number;
    let desk = turn.event.number;
    let reply = ReplyWords(turn.reply);
    match (turn.reply, t.columns) {
        (Reply::Taken, _) => Ok(()),
        (_, false) => write!(t.out, "; answers {reply}"),
        (Reply::Item(item), true) => writeln!(t.out, "answer\t{i}\t{desk}\titem\t{item}"),
        (_, true) => writeln!(t.out, "answer\t{i}\t{desk}\t{reply}\t-"),
    }
}

fn stepped<W: Write>(t: &mut Telling<W>, turn: Turn<'_>) -> io::Result<()> {
    let i = turn.number;
    let desk = turn.event.number;
    let step = Step(thread_of(turn.before, desk).step);
    if t.columns {
        writeln!(t.out, "step\t{i}\t{desk}\t{step}")?;
    } else {
        let deed = Deed {
            desk,
            before: turn.before,
            after: turn.after,
        };
        write!(t.out, "{i}  desk {desk}  {step}  {deed}")?;
    }
    for line in 0..line_total(turn.before.shape()) {
        changed(t, turn, line)?;
    }
    assured(t, turn)?;
    answered(t, turn)?;
    if t.columns { Ok(()) } else { writeln!(t.out) }
}

// A write-back: the line's list begins anew.
fn written_back<W: Write>(t: &mut Telling<W>, turn: Turn<'_>) -> io::Result<()> {
    let i = turn.number;
    let line = turn.event.number;
    t.book.begin(line, cached_of(turn.after, line));
    if t.columns {
        return writeln!(t.out, "persist\t{i}\t{line}\twrite-back");
    }
    let name = LineName {
        shape: turn.after.shape(),
        line,
    };
    writeln!(t.out, "{i}  {} is written back", LineWords(name))
}

pub fn happened<W: Write>(t: &mut Telling<W>, turn: Turn<'_>) -> io::Result<()> {
    match turn.event.kind {
        1 | 2 => begin(t, turn),
        3 => stepped(t, turn),
        4 => written_back(t, turn),
        _ => started(t, Some(turn.number), turn.after),
    }
}
