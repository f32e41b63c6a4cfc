// The calls on schedules in words, for many inputs in one run, so that another program's answers can be compared with theirs.
// Standard input: one byte that names the mode, then a stream of items, each behind its length (4 bytes, little-endian).
//   w  a schedule:  `refused N at P`, or its words
//   u  a text:      `N LINE BYTES`, the schedule in hex
//   p  an entry's number and a room (2 bytes each), then a schedule: `N P ENTRIES BYTES BUFFER`, the whole lent buffer in hex

#![tactic(auto)]

use answer::told_of;
use compare::items::{answer_all, mode_of};
use compare::output::{Hex, Output, front, refused};
use desk::{read_words, spell_lines};
use spelling::Misread;
use std::io;
use std::io::Write;
use stream::half;

fn answer_words(s: &[u8], out: &mut Output) -> io::Result<()> {
    let mut lent = [0u8; 266880];
    match spell_lines(s, 0, &mut lent) {
        Ok(spelled) => out.write_all(front(&lent, spelled.bytes)),
        Err(e) => refused(out, e),
    }
}

fn answer_text(s: &[u8], out: &mut Output) -> io::Result<()> {
    let mut lent = [0u8; 396547];
    match read_words(s, &mut lent) {
        Ok(bytes) => writeln!(out, "0 0 {}", Hex(front(&lent, bytes))),
        Err(Misread::Strange(line)) => writeln!(out, "1 {line} "),
        Err(Misread::Large(line)) => writeln!(out, "2 {line} "),
        Err(Misread::Many(line)) => writeln!(out, "3 {line} "),
        Err(Misread::Room) => writeln!(out, "4 0 "),
    }
}

// What was answered, and the whole of what was lent.
fn answer_piece(s: &[u8], out: &mut Output) -> io::Result<()> {
    if s.len() < 4 {
        return Ok(());
    }
    let k = half(s, 0);
    let mut buffer = [0xaa; 65536];
    let lent = &mut buffer[..usize::from(half(s, 2))];
    match spell_lines(&s[4..], u64::from(k), lent) {
        Ok(spelled) => write!(out, "0 0 {} {}", spelled.entries, spelled.bytes)?,
        Err(e) => {
            let told = told_of(Err(e));
            write!(out, "{} {} 0 0", told.number, told.place)?;
        }
    }
    writeln!(out, " {}", Hex(lent))
}

fn main(rt: HostRuntime) {
    let mut input = rt.stdin();
    let answer: fn(&[u8], &mut Output) -> io::Result<()> = match mode_of(&mut input) {
        b'w' => answer_words,
        b'u' => answer_text,
        b'p' => answer_piece,
        // No mode: what stands behind it is read and not answered.
        _ => |_, _| Ok(()),
    };
    // Longer than any schedule and than the texts that are compared.
    let mut item = [0u8; 131072];
    answer_all(&mut input, &mut item, Output::new(rt.stdout()), answer);
}
