// An error of std's as a cut: no clause speaks of it.
use crate::Cut;
use std::io;
use std::io::{ErrorKind, Read};
use std::test::Fail;

// As a caller reads who uses std's own methods.
fn exactly(input: &mut impl Read, buffer: &mut [u8]) -> Result<(), Cut> {
    input.read_exact(buffer)?;
    Ok(())
}

#[test]
fn an_input_that_ends_early_is_cut() -> Result<(), Fail> {
    let mut input: &[u8] = &[1, 2, 3, 4];
    let mut three = [0; 3];
    if exactly(&mut input, &mut three) != Ok(()) || three != [1, 2, 3] {
        return Err(Fail::new("three bytes of four were not read"));
    }
    if exactly(&mut input, &mut three) != Err(Cut) {
        return Err(Fail::new("three bytes of one were read"));
    }
    Ok(())
}

// A byte at each read but the second, which fails.
#[derive(Drop)]
struct Broken {
    reads: u8,
}

impl Read for Broken {
    fn read(&mut self, buffer: &mut [u8]) -> io::Result<usize> {
        self.reads = self.reads.saturating_add(1);
        match buffer.first_mut() {
            Some(_) if self.reads == 2 => Err(io::Error::from(ErrorKind::BrokenPipe)),
            Some(x) => {
                *x = 7;
                Ok(1)
            }
            None => Ok(0),
        }
    }
}

#[test]
fn a_read_that_fails_is_cut() -> Result<(), Fail> {
    if exactly(&mut Broken { reads: 0 }, &mut [0; 3]) != Err(Cut) {
        return Err(Fail::new("a read failed and no cut was told"));
    }
    Ok(())
}
