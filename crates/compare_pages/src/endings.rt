// What the public calls say of a schedule's endings.
use crate::paged::sum_endings;
use compare::contents::size_in;
use compare::output::{Hex, Output, refused};
use compare::sums::Sum;
use pages::calls::{count_endings, ending_of};
use std::io;
use std::io::Write;

// The lines of the first `count` endings, each of which fills what is lent, then their sum.
fn put_endings(out: &mut Output, s: &[u8], count: u32, lent: &mut [u8]) -> io::Result<()> {
    let mut sum = Sum::new();
    for k in 0..count {
        match ending_of(s, u64::from(k), lent) {
            Ok(_) => writeln!(out, "{}", Hex(lent))?,
            Err(e) => refused(out, e)?,
        }
        sum = sum.with(lent);
    }
    writeln!(out, "sum {sum}")
}

// What is answered for ending k in this buffer; it is to be refused.
fn put_refused(out: &mut Output, s: &[u8], k: u32, lent: &mut [u8]) -> io::Result<()> {
    match ending_of(s, u64::from(k), lent) {
        Ok(_) => writeln!(out, "refused 0 at 0"),
        Err(e) => refused(out, e),
    }
}

// A schedule that is taken. It has at least one ending.
fn put_taken(out: &mut Output, s: &[u8], count: u32) -> io::Result<()> {
    let whole = size_in(s);
    let mut lent = [0xaa; 3329];
    writeln!(out, "endings {count}")?;
    if count <= 32 {
        put_endings(out, s, count, &mut lent[..whole])?;
    } else {
        writeln!(out, "sum {}", sum_endings(s, count))?;
    }
    put_refused(out, s, count, &mut lent[..0])?;
    put_refused(out, s, count.saturating_sub(1), &mut lent[..whole - 1])
}

pub(crate) fn answer_schedule(s: &[u8], out: &mut Output) -> io::Result<()> {
    match count_endings(s) {
        Ok(count) => put_taken(out, s, count),
        Err(e) => refused(out, e),
    }
}
