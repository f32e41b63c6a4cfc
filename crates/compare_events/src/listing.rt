// The despatch desk's list.
use compare::output::{Output, front, refused};
use parcels::despatch;
use std::io;
use std::io::Write;
use stream::{byte, word};

// An ending's number (4 bytes) and a schedule: `refused N at P`, or `list COUNT` and ` ITEM:GROUP` for each entry.
pub(crate) fn answer_list(s: &[u8], out: &mut Output) -> io::Result<()> {
    if s.len() < 4 {
        return Ok(());
    }
    let mut b = [0u8; 32768];
    let count = match despatch(&s[4..], u64::from(word(s, 0)), &mut b) {
        Ok(count) => count,
        Err(e) => return refused(out, e),
    };
    write!(out, "list {count}")?;
    for entry in front(&b, usize::from(count) * 8).chunks_exact(8) {
        write!(out, " {}:{}", word(entry, 4), byte(entry, 3))?;
    }
    writeln!(out)
}
