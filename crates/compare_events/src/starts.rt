// Starts from contents, and fresh machines.
use crate::instants::{put_moment, put_moment_sum};
use answer::Reply;
use compare::contents::{contents_of, wide_contents_of};
use compare::output::{Output, refused};
use image::Image;
use machine::{Machine, start_from};
use std::io;
use stream::byte;

fn put_start(out: &mut Output, g: Image, t: u8) -> io::Result<()> {
    match start_from(g, t) {
        Ok(m) => put_moment(out, Reply::Taken, m),
        Err(e) => refused(out, e),
    }
}

// The last digit of the byte behind the nodes is T.
pub(crate) fn answer_start(s: &[u8], out: &mut Output) -> io::Result<()> {
    put_start(out, contents_of(s), byte(s, 581) % 10)
}

pub(crate) fn answer_wide_start(s: &[u8], out: &mut Output) -> io::Result<()> {
    put_start(out, wide_contents_of(s), byte(s, 842) % 10)
}

pub(crate) fn answer_fresh(s: &[u8], out: &mut Output) -> io::Result<()> {
    match Machine::fresh(byte(s, 0), byte(s, 1)) {
        Ok(m) => put_moment_sum(out, Reply::Taken, m),
        Err(e) => refused(out, e),
    }
}
