// Images read, and written again.
use compare::output::{Hex, Output, front, refused};
use image::Image;
use std::io;
use std::io::Write;

fn size_of(form: u8, n: u8, t: u8) -> usize {
    if form == 2 {
        return 14 + usize::from(n) * 13;
    }
    if form == 4 {
        return 7 + usize::from(t) * 4 + usize::from(n) * 9;
    }
    10 + usize::from(n) * 9
}

// The image as write_image writes it, in hex.
pub(crate) fn put_image(out: &mut Output, g: Image) -> io::Result<()> {
    let mut bytes = [0u8; 846];
    if let Err(e) = codec::write_image(g, &mut bytes) {
        return refused(out, e);
    }
    write!(out, "{}", Hex(front(&bytes, size_of(g.form, g.n, g.t))))
}

pub(crate) fn answer_image(s: &[u8], out: &mut Output) -> io::Result<()> {
    match codec::read_image(s) {
        Ok(g) => {
            put_image(out, g)?;
            writeln!(out)
        }
        Err(e) => refused(out, e),
    }
}
