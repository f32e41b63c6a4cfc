// Images mended. An item is an image and the lent buffer's room (2 bytes); the list has room for all nodes.
use crate::lent::without_last;
use answer::told_of;
use compare::output::{Hex, Output, front};
use mending::mend_image;
use std::io;
use std::io::Write;
use stream::{byte, half};

// ` NODE:REASON` for each entry, or `-` where there is none.
fn put_entries(out: &mut Output, entries: &[u8]) -> io::Result<()> {
    if entries.is_empty() {
        return write!(out, " -");
    }
    for entry in entries.chunks_exact(2) {
        write!(out, " {}:{}", byte(entry, 0), byte(entry, 1))?;
    }
    Ok(())
}

// Number, place, the whole of what was lent, and the list.
pub(crate) fn answer_mended(s: &[u8], out: &mut Output) -> io::Result<()> {
    if s.len() < 2 {
        return Ok(());
    }
    let (image, behind) = without_last(s, 2);
    let mut buffer = [0xaa; 65536];
    let lent = &mut buffer[..usize::from(half(behind, 0))];
    let mut list = [0xaa; 128];
    match mend_image(image, lent, &mut list) {
        Ok(count) => {
            write!(out, "0 0 {}", Hex(lent))?;
            put_entries(out, front(&list, usize::from(count) * 2))?;
        }
        Err(e) => {
            let told = told_of(Err(e));
            write!(out, "{} {} {} -", told.number, told.place, Hex(lent))?;
        }
    }
    writeln!(out)
}
