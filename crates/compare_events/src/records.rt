// Records that are handed in. An item is a record and an event (6 bytes).
use crate::instants::put_moment;
use answer::{Refusal, Reply, told_of};
use compare::output::{Hex, Output, front};
use events::{count_places, save};
use machine::{Event, Machine, Out, Places};
use record::{SIZE, read_record};
use std::io;
use std::io::Write;
use stream::{byte, half, word};

// The record in front of the item, or what is wrong with its bytes.
fn record_in(s: &[u8]) -> Result<Machine, Refusal> {
    read_record(front(s, SIZE))
}

fn event_in(s: &[u8]) -> Event {
    Event {
        kind: byte(s, SIZE),
        number: byte(s, SIZE + 1),
        item: word(s, SIZE + 2),
    }
}

// Bytes that are no record stay, with no reply.
pub(crate) fn answer_record<F: Fn(Machine, Event) -> Out>(
    s: &[u8],
    out: &mut Output,
    by: F,
) -> io::Result<()>
    requires { F.IsAlwaysCallable by }
{
    match record_in(s) {
        Ok(m) => {
            let happened = by(m, event_in(s));
            let told = told_of(happened.answer);
            write!(out, "{} {} ", told.number, told.place)?;
            put_moment(
                out,
                happened.answer.unwrap_or(Reply::Taken),
                happened.machine,
            )
        }
        Err(e) => {
            let told = told_of(Err(e));
            let stays = Hex(front(s, SIZE));
            writeln!(out, "{} {} 0 0 {stays}", told.number, told.place)
        }
    }
}

pub(crate) fn answer_places(s: &[u8], out: &mut Output) -> io::Result<()> {
    match record_in(s).and_then(|m| count_places(m)) {
        Ok(
            Places {
                queue,
                free,
                waiting,
                held,
                enqueue,
                dequeue,
            },
        ) => writeln!(
            out,
            "0 0 {queue} {free} {waiting} {held} {enqueue} {dequeue}"
        ),
        Err(e) => {
            let told = told_of(Err(e));
            writeln!(out, "{} {} 0 0 0 0 0 0", told.number, told.place)
        }
    }
}

// Number, place and the whole of what was lent.
pub(crate) fn answer_saved(s: &[u8], out: &mut Output) -> io::Result<()> {
    let mut buffer = [0xaa; 65536];
    let lent = &mut buffer[..usize::from(half(s, SIZE))];
    let told = match record_in(s) {
        Ok(m) => told_of(save(m, lent)),
        Err(e) => told_of(Err(e)),
    };
    writeln!(out, "{} {} {}", told.number, told.place, Hex(lent))
}
