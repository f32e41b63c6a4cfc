// Schedules read up to their events, and each event.
use crate::images::put_image;
use compare::output::{Hex, Output, refused};
use schedule::Schedule;
use std::io;
use std::io::Write;

fn put_schedule(out: &mut Output, s: &[u8], d: Schedule) -> io::Result<()> {
    write!(out, "taken {} {} ", d.t, d.count)?;
    put_image(out, d.image)?;
    write!(out, " ")?;
    for i in 0..usize::from(d.count) {
        if let Ok(e) = codec::event_of(s, i) {
            let item = e.item.to_le_bytes();
            write!(out, "{:02x}{:02x}{}", e.kind, e.number, Hex(&item))?;
        }
    }
    writeln!(out)
}

pub(crate) fn answer_schedule(s: &[u8], out: &mut Output) -> io::Result<()> {
    match codec::read_schedule(s) {
        Ok(d) => put_schedule(out, s, d),
        Err(e) => refused(out, e),
    }
}
