// Text: lines of a schedule's page, and the line of a refusal.

#![tactic(auto)]

ghost use Rattle.std.specs.Prelude.{◌≡◌, ◌<◌, length, IfOk};
ghost use Rattle.answer.specs.Answers.{given};
ghost use Rattle.page.specs.Filled.{lines_answer, lines_taken, lines_bytes, lines_written};
ghost use Rattle.filling.specs.Lines.{refusal_answer, refusal_bytes, refusal_written};
ghost use Rattle.calls.specs.Packed.{lines_of};
ghost use Rattle.calls.specs.Texts.{lines_given, refusal_given};

use answer::Refusal;
use calls::packing::{lines_of, packed_result};

// How many lines were written, and their bytes.
fn put_lines(schedule: &[u8], k: u64, buffer: &mut [u8]) -> Result<u64, Refusal>
    ensures gives { result ≡ given (lines_answer schedule.now k (length buffer.old)) (lines_of (lines_taken schedule.now k (length buffer.old)) (length (lines_bytes schedule.now k (length buffer.old)))) }
    ensures bytes { buffer.new ≡ lines_written schedule.now k buffer.old }
    ensures small { IfOk result (λ v. v < 72057594037927936) }
{
    let page = filling::page_lines(schedule, k, buffer)?;
    Ok(lines_of(page.lines, page.bytes))
}

// As many lines of the page as fit into the buffer, from line k on. The value is how many, and their bytes.
pub fn page_lines(schedule: &[u8], k: u64, buffer: &mut [u8]) -> u64
    ensures answers { result ≡ lines_given schedule.now k (length buffer.old) }
    ensures bytes { buffer.new ≡ lines_written schedule.now k buffer.old }
{
    packed_result(put_lines(schedule, k, buffer))
}

// One line was written, and its bytes.
fn put_refusal(number: u32, place: u32, buffer: &mut [u8]) -> Result<u64, Refusal>
    ensures gives { result ≡ given (refusal_answer number place (length buffer.old)) (lines_of 1 (length (refusal_bytes number place (length buffer.old)))) }
    ensures bytes { buffer.new ≡ refusal_written number place buffer.old }
    ensures small { IfOk result (λ v. v < 72057594037927936) }
{
    let bytes = filling::refusal_line(number, place, buffer)?;
    Ok(lines_of(1, bytes))
}

// The line of a refusal into the buffer. The value is one line, and its bytes.
pub fn refusal_line(number: u32, place: u32, buffer: &mut [u8]) -> u64
    ensures answers { result ≡ refusal_given number place (length buffer.old) }
    ensures bytes { buffer.new ≡ refusal_written number place buffer.old }
{
    packed_result(put_refusal(number, place, buffer))
}
