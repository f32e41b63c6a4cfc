// The printed pages of many schedules, one after the other: each schedule on standard input stands behind its length (4 bytes,
// little-endian). Standard error tells how far it is, and what is wrong where it stops early.

#![tactic(auto)]

mod progress;

ghost use Rattle.std.specs.Prelude.{◌≤◌, length};

use printer::print_page;
use progress::{say, tell_done, tell_end};
use std::io::{Read, Write};
use stream::{Cut, next_item};

// The page of the next schedule; whether it is a refusal, none where no page was printed whole.
fn print_next(
    rt: &impl Eprint,
    input: &mut impl Read,
    out: &mut impl Write,
    s: &mut [u8],
    b: &mut [u8],
) -> Option<bool>
    requires { (731 ≤ length b.old) × (length b.old ≤ 65536) }
{
    let kept = match next_item(input, s) {
        Ok(item) => item?,
        Err(Cut) => {
            say(
                rt,
                "many: the input ends within a schedule, or a read failed\n",
            );
            return None;
        }
    };
    let printed = print_page(out, &s[..kept], b);
    if printed.bytes.is_none() {
        say(rt, "many: standard output took no more\n");
        return None;
    }
    Some(printed.refused)
}

// How many pages were printed, and how many of them are refusals.
#[derive(Clone, Copy)]
struct Totals {
    done: u64,
    refused: u64,
}

// Nothing says that the input ends, so the pages are counted up to a number that no run reaches.
fn print_all(
    rt: &impl Eprint,
    input: &mut impl Read,
    out: &mut impl Write,
    s: &mut [u8],
    b: &mut [u8],
) -> Totals
    requires { (731 ≤ length b.old) × (length b.old ≤ 65536) }
{
    let mut refused = 0;
    for done in 0..u64::MAX {
        match print_next(rt, input, out, s, b) {
            Some(is_refusal) => refused += u64::from(is_refusal),
            None => return Totals { done, refused },
        }
        tell_done(rt, done + 1);
    }
    Totals {
        done: u64::MAX,
        refused,
    }
}

fn main(rt: HostRuntime) {
    // The longest schedule has 25,430 bytes: what is longer than this is refused as its first part is.
    let mut s = [0u8; 32768];
    let mut b = [0u8; 65536];
    let totals = print_all(&rt, &mut rt.stdin(), &mut rt.stdout(), &mut s, &mut b);
    tell_end(&rt, totals.done, totals.refused);
}
