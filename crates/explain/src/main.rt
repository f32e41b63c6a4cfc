// A run explained: a schedule's bytes on standard input; on standard output its events in words, what each desk and line did, what each line may
// hold at the stop, and with an ending's number as the argument which content each line has there and what recovery makes of it. With the
// argument `columns` the same facts, and every ending, as rows (docs/COLUMNS.md). Every value comes from a public call; the words are not proved.

#![tactic(auto)]

mod asked;

use answer::Refusal;
use asked::Asked;
use compare::output::Output;
use deeds::turns::{Turn, happened};
use image::Shape;
use machine::Machine;
use schedule::Schedule;
use std::io;
use std::io::Write;
use telling::Telling;
use telling::book::Book;
use telling::refusals::refused;
use telling::shapes::line_total;
use telling::starts::started;
use telling::text::LineName;

fn names<W: Write>(t: &mut Telling<W>, shape: Shape) -> io::Result<()> {
    for line in 0..line_total(shape) {
        writeln!(t.out, "line\t{line}\t{}", LineName { shape, line })?;
    }
    Ok(())
}

fn sizes<W: Write>(t: &mut Telling<W>, d: &Schedule) -> io::Result<()> {
    let desks = d.t;
    let nodes = d.image.n;
    let events = d.count;
    if t.columns {
        return writeln!(t.out, "sizes\t{desks}\t{nodes}\t{events}");
    }
    writeln!(t.out, "threads {desks} nodes {nodes} events {events}")
}

// The events, one behind the other: the record behind the last, where none is refused.
fn events_told<W: Write>(
    t: &mut Telling<W>,
    s: &[u8],
    start: Machine,
    count: u16,
) -> io::Result<Option<Machine>> {
    let mut m = start;
    for number in 0..count {
        let event = match codec::event_of(s, number as usize) {
            Ok(event) => event,
            Err(why) => {
                refused(t, why, None, m.shape())?;
                return Ok(None);
            }
        };
        let out = events::on_event(m, event);
        let reply = match out.answer {
            Ok(reply) => reply,
            Err(why) => {
                refused(t, why, Some((number, event)), m.shape())?;
                return Ok(None);
            }
        };
        let after = out.machine;
        let turn = Turn {
            number,
            event,
            before: &m,
            after: &after,
            reply,
        };
        happened(t, turn)?;
        m = after;
    }
    Ok(Some(m))
}

fn ending_told<W: Write>(t: &mut Telling<W>, s: &[u8], m: &Machine, k: u64) -> io::Result<()> {
    match stops::ended_at(s, m, k) {
        Ok(ended) => stops::ending_words(t, k, &ended, line_total(m.shape())),
        Err(why) => refused(t, why, None, m.shape()),
    }
}

fn endings_told<W: Write>(
    t: &mut Telling<W>,
    how: Asked,
    s: &[u8],
    m: &Machine,
    count: u32,
) -> io::Result<()> {
    match how {
        Asked::Columns => {
            writeln!(t.out, "endings\t{count}")?;
            stops::endings(t, s, m, count)
        }
        Asked::Words => writeln!(t.out, "endings {count}"),
        Asked::Ending(k) => {
            writeln!(t.out, "endings {count}")?;
            ending_told(t, s, m, k)
        }
    }
}

// What stands behind the last event.
fn stop_told<W: Write>(t: &mut Telling<W>, how: Asked, s: &[u8], m: &Machine) -> io::Result<()> {
    stops::next_steps(t, m)?;
    let counted = pages::count_endings(s);
    if counted.is_ok() {
        stops::lines_called(s, &mut t.book, line_total(m.shape()));
    }
    stops::lines_kept(t, m)?;
    match counted {
        Ok(count) => endings_told(t, how, s, m, count),
        Err(why) => refused(t, why, None, m.shape()),
    }
}

// The run from the start on, where the image has one.
fn run_told<W: Write>(t: &mut Telling<W>, how: Asked, s: &[u8], d: &Schedule) -> io::Result<()> {
    sizes(t, d)?;
    let m = match machine::start_from(d.image, d.t) {
        Ok(m) => m,
        Err(why) => return refused(t, why, None, d.image.shape()),
    };
    if t.columns {
        names(t, m.shape())?;
    }
    started(t, None, &m)?;
    match events_told(t, s, m, d.count)? {
        Some(last) => stop_told(t, how, s, &last),
        None => Ok(()),
    }
}

// The shape that the image of a schedule says, as far as there are bytes.
fn shape_said(s: &[u8]) -> Shape {
    if s.len() < 15 {
        return Shape {
            form: 0,
            n: 0,
            t: 0,
        };
    }
    codec::shape_in(&s[8..])
}

fn explained<W: Write>(t: &mut Telling<W>, how: Asked, s: &[u8]) -> io::Result<()> {
    if t.columns {
        writeln!(t.out, "columns\t1")?;
    }
    match codec::read_schedule(s) {
        Ok(d) => run_told(t, how, s, &d)?,
        Err(why) => refused(t, why, None, shape_said(s))?,
    }
    t.out.flush()
}

fn main(rt: HostRuntime) {
    let Some(how) = asked::way_asked(&rt) else {
        let _ = eprintln!(rt; "use: explain [columns | NUMBER OF AN ENDING] <SCHEDULE");
        return;
    };
    // The longest schedule has 25,430 bytes: what is longer than this is refused as its first part is.
    let mut s = [0u8; 32768];
    let Ok(bytes) = stream::fill(&mut rt.stdin(), &mut s) else {
        let _ = eprintln!(rt;
            "explain: standard input could not be read to its end, nothing is printed"
        );
        return;
    };
    let mut telling = Telling {
        out: Output::new(rt.stdout()),
        columns: matches!(how, Asked::Columns),
        book: Book::new(),
    };
    let _ = explained(&mut telling, how, &s[..bytes]);
}
