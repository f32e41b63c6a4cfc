// Many probe files replayed, a line each: each file on standard input stands behind its length (4 bytes, little-endian). Standard error tells
// how many there were, and what is wrong where it stops early.

#![tactic(auto)]

use std::io::Read;
use stream::{Cut, next_item};

// A line for each file; how many there were. Nothing says that the input ends, so they are counted up to a number that no run reaches.
fn print_all(rt: &(impl Print + Eprint), input: &mut impl Read, s: &mut [u8]) -> u64 {
    for done in 0..u64::MAX {
        match next_item(input, s) {
            Ok(Some(kept)) => replayed::print_file(rt, &s[..kept]),
            Ok(None) => return done,
            Err(Cut) => {
                let _ = eprintln!(rt; "replays: the input ends within a file, or a read failed");
                return done;
            }
        }
    }
    u64::MAX
}

fn main(rt: HostRuntime) {
    // The longest probe file has 50,006 bytes: what is longer than this is refused as its first part is.
    let mut s = [0u8; 65536];
    let done = print_all(&rt, &mut rt.stdin(), &mut s);
    let _ = eprintln!(rt; "replays: {done} files");
}
