// The stop: which desks stand where, what each line may hold, and the endings.

#![tactic(auto)]

use answer::Refusal;
use image::Image;
use machine::Machine;
use std::io::Write;
use std::{fmt, io};
use telling::Telling;
use telling::book::Book;
use telling::lines::{content_in, thread_of};
use telling::shapes::{head_index, line_total};
use telling::starts::{Part, Queue, recovered};
use telling::text::{Fields, Held, LineName, Step, letter};

// The step before which each desk stands that has an operation.
pub fn next_steps<W: Write>(t: &mut Telling<W>, m: &Machine) -> io::Result<()> {
    for desk in 0..m.t {
        let th = thread_of(m, desk);
        if th.step == 0 {
            continue;
        }
        let step = Step(th.step);
        if t.columns {
            writeln!(t.out, "next\t{desk}\t{step}")?;
        } else {
            writeln!(t.out, "desk {desk} stands before {step}")?;
        }
    }
    Ok(())
}

// The contents of a line as the public call has them, into the book.
fn line_called(s: &[u8], book: &mut Book, line: u8) {
    let Ok(found) = pages::line_contents(s, line as u32) else {
        return;
    };
    let count = (found.count as usize).min(16);
    for (j, c) in found.contents[..count].iter().enumerate() {
        if j == 0 {
            book.begin(line, *c);
        } else {
            book.join(line, *c);
        }
    }
}

pub fn lines_called(s: &[u8], book: &mut Book, n: u8) {
    for line in 0..n {
        line_called(s, book, line);
    }
}

fn line_kept<W: Write>(t: &mut Telling<W>, m: &Machine, line: u8) -> io::Result<()> {
    let shape = m.shape();
    if !t.columns {
        writeln!(t.out, "line {line}, {}, may hold", LineName { shape, line })?;
    }
    let contents = *t.book.line(line);
    for (j, content) in contents.list().iter().enumerate() {
        let held = Held {
            shape,
            line,
            content: *content,
        };
        if t.columns {
            writeln!(t.out, "kept\t{line}\t{j}\t{}", Fields(held))?;
        } else {
            writeln!(t.out, "  {}  {held}", letter(j))?;
        }
    }
    Ok(())
}

pub fn lines_kept<W: Write>(t: &mut Telling<W>, m: &Machine) -> io::Result<()> {
    for line in 0..line_total(m.shape()) {
        line_kept(t, m, line)?;
    }
    Ok(())
}

// The image of an ending, and the machine that recovery makes of it.
#[derive(Clone, Copy, Debug)]
pub struct Ended {
    pub image: Image,
    pub machine: Machine,
}

// Ending k of the schedule's bytes, whose run stops at m.
pub fn ended_at(s: &[u8], m: &Machine, k: u64) -> Result<Ended, Refusal> {
    let mut b = [0u8; 1024];
    pages::ending_of(s, k, &mut b)?;
    let z = m.shape();
    let size = if image::is_known(z.form) {
        image::size_of(z)
    } else {
        0
    };
    let image = codec::read_image(b.get(..size).unwrap_or(&b))?;
    let machine = machine::start_from(image, m.t)?;
    Ok(Ended { image, machine })
}

// The letters of the lines with a choice, - where none has one.
#[derive(Clone, Copy, Debug)]
struct Choices<'a> {
    book: &'a Book,
    image: &'a Image,
    lines: u8,
}

impl fmt::Display for Choices<'_> {
    fn fmt<W: fmt::Write>(&self, f: &mut fmt::Formatter<W>) -> fmt::Result {
        let mut none = true;
        for line in 0..self.lines {
            let contents = self.book.line(line);
            if contents.list().len() > 1 {
                let j = contents.seat_of(content_in(self.image, line));
                write!(f, "{}", letter(j))?;
                none = false;
            }
        }
        if none { write!(f, "-") } else { Ok(()) }
    }
}

fn ending_row<W: Write>(t: &mut Telling<W>, k: u32, e: &Ended, lines: u8) -> io::Result<()> {
    let choices = Choices {
        book: &t.book,
        image: &e.image,
        lines,
    };
    let items = Queue {
        machine: &e.machine,
        part: Part::Items,
    };
    let indices = Queue {
        machine: &e.machine,
        part: Part::Indices,
    };
    writeln!(
        t.out,
        "ending\t{k}\t{choices}\t{}\t{items}\t{indices}",
        head_index(&e.machine)
    )
}

// Every ending, a row each.
pub fn endings<W: Write>(t: &mut Telling<W>, s: &[u8], m: &Machine, count: u32) -> io::Result<()> {
    for k in 0..count {
        if let Ok(e) = ended_at(s, m, k as u64) {
            ending_row(t, k, &e, line_total(m.shape()))?;
        }
    }
    Ok(())
}

// Ending k in words: which content each line has, and what recovery makes of it.
pub fn ending_words<W: Write>(t: &mut Telling<W>, k: u64, e: &Ended, lines: u8) -> io::Result<()> {
    writeln!(t.out, "ending {k}")?;
    let shape = e.image.shape();
    for line in 0..lines {
        let content = content_in(&e.image, line);
        let held = Held {
            shape,
            line,
            content,
        };
        let choice = letter(t.book.line(line).seat_of(content));
        writeln!(t.out, "  {} has {choice}: {held}", LineName { shape, line })?;
    }
    write!(t.out, "recovery: ")?;
    recovered(&mut t.out, &e.machine)
}
