// A probe file replayed.
use compare::output::{Output, refused};
use replaying::replay;
use std::io;
use std::io::Write;

// `event E recorded ANSWER ITEM given ANSWER ITEM` of the first that differs, `all agree`, or `refused N at P`
pub(crate) fn answer_probe(s: &[u8], out: &mut Output) -> io::Result<()> {
    match replay(s) {
        Ok(None) => writeln!(out, "all agree"),
        Ok(Some(d)) => {
            write!(out, "event {} recorded {} {}", d.event, d.seen, d.seen_item)?;
            writeln!(out, " given {} {}", d.given, d.given_item)
        }
        Err(e) => refused(out, e),
    }
}
