// The byte form of a machine record, for the static library and for comparisons with other programs. No public calls: both functions
// refuse a wrong length, and neither tests the record (18); their callers do.

#![tactic(auto)]

mod reading;
mod writing;

ghost use Rattle.std.specs.Prelude.{◌≡◌, length};
ghost use Rattle.answer.specs.Answers.{told, given};
ghost use Rattle.record.specs.Layout.{read_record, record_answer, record_written};

use answer::{Answer, Refusal, Reply};
use codec::is_marked;
use machine::Machine;
use reading::record_in;
use writing::put_record;

// The size of a record's bytes.
pub const SIZE: usize = 2267;

// The record that 2,267 bytes are, or 1, or 2; the record is not tested. The mark is "UQM", version 4.
pub fn read_record(s: &[u8]) -> Result<Machine, Refusal>
    ensures { result ≡ given (read_record s.now).answer (read_record s.now).machine }
{
    if s.len() != SIZE {
        return Err(Refusal::Length);
    }
    if !is_marked(s, 85, 81, 77, 4) {
        return Err(Refusal::Mark);
    }
    Ok(record_in(s))
}

// Writes the record, untested, into the first 2,267 bytes of the buffer, or nothing and 17.
pub fn write_record(m: Machine, b: &mut [u8]) -> Answer
    ensures answers { told result ≡ told (record_answer (length b.old)) }
    ensures bytes { b.new ≡ record_written m b.old }
{
    if b.len() < SIZE {
        return Err(Refusal::Room);
    }
    put_record(b, m);
    Ok(Reply::Taken)
}
