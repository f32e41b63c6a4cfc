// The plain way, for many schedules in one run, so that another program's answers can be compared with its own.
// Standard input: a stream of schedules, each behind its length (4 bytes, little-endian). Standard output, for each: `refused N at P`, or
//   endings COUNT
//   sum SUM      the FNV-1a sum of all images' bytes
//   refused ..   the same call with a buffer that is one byte too short

#![tactic(auto)]

use compare::items::answer_all;
use compare::output::{Output, front, refused};
use compare::sums::Sum;
use plainway::plain_page;
use std::io;
use std::io::Write;

// The images of a schedule that is taken, and the call once more, where there is an image, with a buffer that is one byte short.
fn put_taken(out: &mut Output, s: &[u8], lent: &mut [u8], count: u32) -> io::Result<()> {
    let all = count as usize * compare::contents::size_in(s);
    writeln!(out, "endings {count}")?;
    writeln!(out, "sum {}", Sum::new().with(front(lent, all)))?;
    if all == 0 || lent.len() < all {
        return Ok(());
    }
    match plain_page(s, &mut lent[..all - 1]) {
        Ok(_) => writeln!(out, "refused 0 at 0"),
        Err(e) => refused(out, e),
    }
}

fn answer_schedule(s: &[u8], lent: &mut [u8], out: &mut Output) -> io::Result<()> {
    match plain_page(s, lent) {
        Ok(count) => put_taken(out, s, lent, count),
        Err(e) => refused(out, e),
    }
}

fn main(rt: HostRuntime) {
    // Longer than any schedule; what is longer still is refused as its first part is.
    let mut item = [0u8; 40000];
    let mut lent = [0xaau8; 65536];
    answer_all(
        &mut rt.stdin(),
        &mut item,
        Output::new(rt.stdout()),
        |s, out| answer_schedule(s, &mut lent, out),
    );
}
