// A refusal: its row, or its sentence with what stands at its place.
use crate::Telling;
use crate::shapes::per_desk;
use crate::text::{LineName, LineWords};
use answer::{Refusal, told_of};
use image::Shape;
use machine::Event;
use std::io::Write;
use std::{fmt, io};

// Why the bytes, an event of them or what was asked of them is refused; the shape is that of the image, as far as the bytes say it.
#[derive(Clone, Copy, Debug)]
struct Reason {
    why: Refusal,
    event: Option<Event>,
    shape: Shape,
}

// What an event was to do.
#[derive(Clone, Copy, Debug)]
struct Wanted(Event);

impl fmt::Display for Wanted {
    fn fmt<W: fmt::Write>(&self, f: &mut fmt::Formatter<W>) -> fmt::Result {
        let number = self.0.number;
        match self.0.kind {
            1 => write!(f, "desk {number} was to begin an enqueue"),
            2 => write!(f, "desk {number} was to begin a dequeue"),
            3 => write!(f, "desk {number} was to take a step"),
            4 => write!(f, "line {number} was to be written back"),
            _ => write!(f, "desk {number} was to crash"),
        }
    }
}

fn event_words<W: fmt::Write>(f: &mut fmt::Formatter<W>, why: Refusal, e: Event) -> fmt::Result {
    let wanted = Wanted(e);
    match why {
        Refusal::Kind(_) => write!(f, "its kind is {}, which is none that is known", e.kind),
        Refusal::Number(_) => write!(f, "{wanted}, but there is none of that number"),
        Refusal::Busy(_) => write!(f, "{wanted}, but it still has an operation"),
        Refusal::Idle(_) => write!(f, "{wanted}, but it has no operation"),
        Refusal::Clean(_) => write!(
            f,
            "{wanted}, but it is clean: its cached and persisted contents are equal"
        ),
        _ => write!(f, "{wanted}, but a field that should be zero is not"),
    }
}

fn bytes_words<W: fmt::Write>(f: &mut fmt::Formatter<W>, why: Refusal, z: Shape) -> fmt::Result {
    match why {
        Refusal::Length => write!(
            f,
            "the length is wrong: the bytes end too early, or go on behind the last event"
        ),
        Refusal::Mark => write!(
            f,
            "mark or version is wrong: no schedule with an image that is read here"
        ),
        Refusal::Nodes => write!(f, "the number of nodes is not 2 to 64"),
        // An image that holds the number of threads holds the schedule's.
        Refusal::Threads if per_desk(z) => write!(
            f,
            "the number of threads is not 1 to 8, or the image has another than the schedule"
        ),
        Refusal::Threads => write!(f, "the number of threads is not 1 to 8"),
        Refusal::Events => write!(f, "there are more than 4,096 events"),
        Refusal::Linked(i) => write!(f, "the linked byte of node {i} is above 1"),
        Refusal::Twin(i) => write!(
            f,
            "node {i} has a lower-numbered twin: two recovered nodes with one index"
        ),
        Refusal::NoDummy => write!(f, "every node is recovered, none is left to be the dummy"),
        _ => write!(f, "a record is outside its ranges"),
    }
}

impl fmt::Display for Reason {
    fn fmt<W: fmt::Write>(&self, f: &mut fmt::Formatter<W>) -> fmt::Result {
        if let Some(e) = self.event {
            return event_words(f, self.why, e);
        }
        match self.why {
            Refusal::Contents(l) => {
                let name = LineName {
                    shape: self.shape,
                    line: (l % 256) as u8,
                };
                write!(f, "{} has more than 16 contents", LineWords(name))
            }
            Refusal::Endings => write!(f, "there are more than 65,536 endings"),
            Refusal::NoEnding => write!(f, "there is no ending of that number"),
            _ => bytes_words(f, self.why, self.shape),
        }
    }
}

// The last row, or the last line: of an event where one is refused, whose number is then the place; z is the shape, as far as the bytes say it.
pub fn refused<W: Write>(
    t: &mut Telling<W>,
    why: Refusal,
    at: Option<(u16, Event)>,
    z: Shape,
) -> io::Result<()> {
    let told = told_of(Err(why));
    let (place, event) = match at {
        Some((i, e)) => (i as u32, Some(e)),
        None => (told.place, None),
    };
    let number = told.number;
    if !t.columns {
        let reason = Reason {
            why,
            event,
            shape: z,
        };
        return writeln!(t.out, "refused {number} at {place}: {reason}");
    }
    write!(t.out, "refused\t{number}\t{place}")?;
    match event {
        Some(e) => writeln!(t.out, "\t{}\t{}\t{}", e.kind, e.number, e.item),
        None => writeln!(t.out, "\t-\t-\t-"),
    }
}
