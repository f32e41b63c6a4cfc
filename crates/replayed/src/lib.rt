// What a replay of one probe file says, as one line on standard output: at which event the recorded answer first differs from the machine's,
// with both, or that all agree, or the refusal.

#![tactic(auto)]

use answer::told_of;
use replaying::replay;
use std::{fmt, io};

// An answer by its number in a probe file, with its item.
#[derive(Clone, Copy)]
struct Answered {
    number: u8,
    item: u32,
}

// In words.
impl fmt::Display for Answered {
    fn fmt<W: fmt::Write>(&self, f: &mut fmt::Formatter<W>) -> fmt::Result {
        match self.number {
            0 => write!(f, "no answer"),
            1 => write!(f, "Done"),
            2 => write!(f, "Full"),
            3 => write!(f, "Worn out"),
            4 => write!(f, "item {}", self.item),
            5..=255 => write!(f, "Empty"),
        }
    }
}

fn print_replayed(rt: &impl Print, s: &[u8]) -> io::Result<()> {
    match replay(s) {
        Ok(None) => println!(rt; "all agree"),
        Ok(Some(d)) => {
            let event = d.event;
            let seen = Answered {
                number: d.seen,
                item: d.seen_item,
            };
            let given = Answered {
                number: d.given,
                item: d.given_item,
            };
            println!(rt; "event {event}: recorded {seen}, the machine gives {given}")
        }
        Err(e) => {
            let told = told_of(Err(e));
            println!(rt; "refused {} at {}", told.number, told.place)
        }
    }
}

// The line of the file that the bytes are. That standard output did not take it is told.
pub fn print_file(rt: &(impl Print + Eprint), s: &[u8]) {
    if print_replayed(rt, s).is_err() {
        let _ = eprintln!(rt; "replay: standard output took no more, the line is not whole");
    }
}
