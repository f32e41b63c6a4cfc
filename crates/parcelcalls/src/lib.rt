// The despatch desk's list, as bytes: what became of each enqueue begun since a schedule's last start, at one of its endings.

#![tactic(auto)]

ghost use Rattle.std.specs.Prelude.{◌≡◌, ◌<◌, length, IfOk};
ghost use Rattle.answer.specs.Answers.{given};
ghost use Rattle.parcels.specs.Despatch.{despatch_answer, despatch_count, despatch_written};
ghost use Rattle.parcelcalls.specs.Given.{despatch_given};

use answer::Refusal;
use calls::packing::packed_result;

// How many entries the list has.
fn counted(schedule: &[u8], k: u64, buffer: &mut [u8]) -> Result<u64, Refusal>
    ensures gives { result ≡ given (despatch_answer schedule.now k (length buffer.old)) (despatch_count schedule.now k (length buffer.old)) }
    ensures bytes { buffer.new ≡ despatch_written schedule.now k buffer.old }
    ensures small { IfOk result (λ v. v < 72057594037927936) }
{
    let count = parcels::despatch(schedule, k, buffer)?;
    Ok(u64::from(count))
}

// The list at ending k into the buffer's first bytes, 8 an entry. The value is the number of entries.
pub fn despatch(schedule: &[u8], k: u64, buffer: &mut [u8]) -> u64
    ensures answers { result ≡ despatch_given schedule.now k (length buffer.old) }
    ensures bytes { buffer.new ≡ despatch_written schedule.now k buffer.old }
{
    packed_result(counted(schedule, k, buffer))
}
