// A stream of items from a reader, as standard input, each behind its length (4 bytes, little-endian).

#![tactic(auto)]

#[cfg(test)]
mod tests;

ghost use Rattle.std.specs.Prelude.{◌+◌, ◌≤◌, ◌≡◌, length, IfOk, IfErr, IfSome};

use std::io;
use std::io::Read;

// The bytes from a place on, 0 beyond the end.
fn bytes_at<const N: usize>(s: &[u8], at: usize) -> [u8; N] {
    let mut bytes = [0; N];
    for (x, y) in bytes.iter_mut().zip(s.get(at..).unwrap_or(&[])) {
        *x = *y;
    }
    bytes
}

// The byte at a place, 0 beyond the end.
pub fn byte(s: &[u8], i: usize) -> u8 {
    s.get(i).copied().unwrap_or(0)
}

// A number of 16 bits.
pub fn half(s: &[u8], at: usize) -> u16 {
    u16::from_le_bytes(bytes_at(s, at))
}

// A number of 32 bits.
pub fn word(s: &[u8], at: usize) -> u32 {
    u32::from_le_bytes(bytes_at(s, at))
}

// A number of 64 bits.
pub fn long(s: &[u8], at: usize) -> u64 {
    u64::from_le_bytes(bytes_at(s, at))
}

// A read failed. Before it so many bytes were put at the buffer's front.
#[derive(Clone, Copy, Debug, PartialEq, Eq)]
pub struct ReadFailed {
    pub bytes: usize,
}

// Fills the buffer: how many bytes were put at its front. Fewer than there is room for: the input ended. One read that finds nothing is the end,
// and no further read asks for it again.
pub fn fill(input: &mut impl Read, buffer: &mut [u8]) -> Result<usize, ReadFailed>
    ensures ok { IfOk result (λ n. n ≤ length buffer.new) }
    ensures err { IfErr result (λ e. e.bytes ≤ length buffer.new) }
{
    let mut bytes = 0;
    while bytes < buffer.len() {
        match input.read(&mut buffer[bytes..]) {
            Ok(0) => break,
            Ok(n) => bytes += n,
            Err(_) => return Err(ReadFailed { bytes }),
        }
    }
    Ok(bytes)
}

// Whether the input is at its end. A read that fails says that it is not, and so does one that finds a byte.
pub fn at_end(input: &mut impl Read) -> bool {
    let mut one = [0; 1];
    matches!(input.read(&mut one), Ok(0))
}

// The whole input at the buffer's front: how many bytes. Of one that is longer than the buffer the first part; none where it could not be read to
// its end, which is asked for once more.
pub fn whole(input: &mut impl Read, buffer: &mut [u8]) -> Option<usize>
    ensures { IfSome result (λ n. n ≤ length buffer.new) }
{
    let bytes = fill(input, buffer).unwrap_or_else(|e| e.bytes);
    if bytes < buffer.len() && !at_end(input) {
        return None;
    }
    Some(bytes)
}

// The input ended within an item, or a read failed.
#[derive(Clone, Copy, Debug, PartialEq, Eq)]
pub struct Cut;

impl From<ReadFailed> for Cut {
    fn from(_e: ReadFailed) -> Cut {
        Cut
    }
}

// For a caller that reads by std's own methods; the items here are read by `fill`.
impl From<io::Error> for Cut {
    fn from(_e: io::Error) -> Cut {
        Cut
    }
}

// As many bytes as the buffer has room for. A read that is interrupted has failed, here as in `fill`, so this is no `read_exact`.
fn fill_all(input: &mut impl Read, buffer: &mut [u8]) -> Result<(), Cut> {
    if fill(input, buffer)? < buffer.len() {
        return Err(Cut);
    }
    Ok(())
}

// Passes over bytes of the input, which are all there.
fn pass_over(input: &mut impl Read, count: usize) -> Result<(), Cut> {
    let mut nowhere = [0; 4096];
    for _ in 0..count / 4096 {
        fill_all(input, &mut nowhere)?;
    }
    fill_all(input, &mut nowhere[..count % 4096])
}

// The next item at the buffer's front: how many of its bytes were kept. Of one that is longer than the buffer the first part is kept and the rest passed
// over. None where the input ends before it.
pub fn next_item(input: &mut impl Read, buffer: &mut [u8]) -> Result<Option<usize>, Cut>
    ensures { IfOk result (λ item. IfSome item (λ kept. kept ≤ length buffer.new)) }
{
    let mut head = [0; 4];
    let got = fill(input, &mut head)?;
    if got == 0 {
        return Ok(None);
    }
    if got < 4 {
        return Err(Cut);
    }
    let all = u32::from_le_bytes(head) as usize;
    let kept = all.min(buffer.len());
    fill_all(input, &mut buffer[..kept])?;
    pass_over(input, all - kept)?;
    Ok(Some(kept))
}

// The number that a word of one to six digits is. There are at most 65,536 endings.
pub fn decimal(s: &[u8]) -> Option<u32> {
    if s.len() > 6 || !s.iter().all(u8::is_ascii_digit) {
        return None;
    }
    str::from_utf8(s).ok()?.parse().ok()
}
