// Text, gathered in a buffer and written out in large pieces.
ghost use Rattle.std.specs.Prelude.{◌≤◌};

use answer::{Refusal, told_of};
use std::io::{Stdout, Write};
use std::{fmt, io};

// The buffer, the first `used` bytes of which are gathered, and standard output, which takes them. What it does not take is lost.
// The buffer is an array, since std's BufWriter takes its own from the heap.
#[derive(Drop)]
pub struct Output {
    bytes: [u8; 65536],
    used: usize,
    to: Stdout,
    ghost within: { used ≤ 65536 },
}

impl Output {
    pub fn new(to: Stdout) -> Output {
        Output {
            bytes: [0; 65536],
            used: 0,
            to,
        }
    }
}

// A text that is full is written out first.
impl Write for Output {
    fn write(&mut self, s: &[u8]) -> io::Result<usize> {
        if self.used == 65536 {
            self.flush()?;
        }
        let n = s.len().min(65536 - self.used);
        self.bytes[self.used..self.used + n].copy_from_slice(&s[..n]);
        self.used += n;
        Ok(n)
    }

    fn flush(&mut self) -> io::Result<()> {
        let _ = self.to.write_all(&self.bytes[..self.used]);
        self.used = 0;
        Ok(())
    }
}

// Bytes in hex, two digits each.
#[derive(Clone, Copy)]
pub struct Hex<'a>(pub &'a [u8]);

// The digit of a number below 16.
fn digit(x: u8) -> u8 {
    b"0123456789abcdef"[usize::from(x % 16)]
}

// Sixty-four bytes at a time: with a `write!` for each of them a comparison of images took more than twice as long (docs/LOOK-BACK.md).
impl fmt::Display for Hex<'_> {
    fn fmt<W: fmt::Write>(&self, f: &mut fmt::Formatter<W>) -> fmt::Result {
        for part in self.0.chunks(64) {
            let mut digits = [b'0'; 128];
            for (pair, x) in digits.chunks_exact_mut(2).zip(part) {
                pair.copy_from_slice(&[digit(x / 16), digit(*x)]);
            }
            f.write_str(str::from_utf8(front(&digits, 2 * part.len())).unwrap_or_default())?;
        }
        Ok(())
    }
}

// The first n bytes, or all where there are fewer.
pub fn front(s: &[u8], n: usize) -> &[u8] {
    s.get(..n).unwrap_or(s)
}

// The line of a refusal.
pub fn refused(out: &mut Output, e: Refusal) -> io::Result<()> {
    let told = told_of(Err(e));
    writeln!(out, "refused {} at {}", told.number, told.place)
}
