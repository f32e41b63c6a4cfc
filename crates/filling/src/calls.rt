// The public calls that write text: lines of a schedule's page, and the line of a refusal.
ghost use Rattle.std.specs.Prelude.{◌≡◌, length};
ghost use Rattle.answer.specs.Answers.{given};
ghost use Rattle.page.specs.Filled.{lines_answer, lines_written};
ghost use Rattle.filling.specs.Lines.{TakesOne, answered, lines_said, refusal_answer, refusal_bytes, refusal_written};

use crate::table::fill;
use answer::Refusal;
use endtable::ending::ending_count;
use printing::fitting::fit_number_place;
use runs::paging::page_of;
use runs::rows::lines_of;
use runs::tables::{counts_of, table_of};

// How many lines were written, and how many bytes they are.
#[derive(Clone, Copy, Debug, PartialEq, Eq)]
pub struct Lines {
    pub lines: u32,
    pub bytes: usize,
}

// As many lines of the page as fit into the lent buffer, from line k on: line 0 is the first line, line k + 1 that of ending k. The bytes
// behind them stay. 16 where there is no line k, 17 where not even that one fits, which a buffer of 731 bytes never meets. On a refusal
// nothing is written.
pub fn page_lines(s: &[u8], k: u64, b: &mut [u8]) -> Result<Lines, Refusal>
    ensures answers { result ≡ given (lines_answer s.now k (length b.old)) (lines_said s.now k (length b.old)) }
    ensures written { b.new ≡ lines_written s.now k b.old }
    ensures onward { TakesOne s.now k (length b.old) (answered result) }
{
    let r = page_of(s)?;
    let z = r.machine.shape();
    let counts = counts_of(&r.rows);
    let count = ending_count(counts, lines_of(z));
    if (count as u64) < k {
        return Err(Refusal::NoEnding);
    }
    let d = codec::open_schedule(s)?;
    let t = table_of(&r.rows);
    let from = k as u32;
    let w = fill(t, counts, z, d.t, d.count, count, from, b);
    if w.next == from {
        return Err(Refusal::Room);
    }
    Ok(Lines {
        lines: w.next - from,
        bytes: w.place,
    })
}

// The line of a refusal, by its number and place, into the front of the lent buffer: how many bytes it is; the bytes behind it stay. Where it does not
// fit, 17, and nothing is written.
pub fn refusal_line(number: u32, place: u32, b: &mut [u8]) -> Result<usize, Refusal>
    ensures answers { result ≡ given (refusal_answer number place (length b.old)) (length (refusal_bytes number place (length b.old))) }
    ensures written { b.new ≡ refusal_written number place b.old }
{
    match fit_number_place(b, 0, number, place) {
        0 => Err(Refusal::Room),
        bytes => Ok(bytes),
    }
}
