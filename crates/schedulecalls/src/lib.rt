// Images and schedules as bytes: whether they are taken, how many endings there are, and each ending.

#![tactic(auto)]

ghost use Rattle.std.specs.Prelude.{◌≡◌, ◌<◌, length, IfOk};
ghost use Rattle.answer.specs.Answers.{given};
ghost use Rattle.page.specs.Refusals.{page_answer, ending_written};
ghost use Rattle.runs.specs.Paged.{count_of};
ghost use Rattle.calls.specs.Calls.{image_checked, schedule_checked, endings_counted, ending_given};

use answer::Refusal;
use calls::packing::{packed_answer, packed_result};

// Whether the bytes are an image. None is built.
pub fn check_image(image: &[u8]) -> u64
    ensures { result ≡ image_checked image.now }
{
    let a = codec::check_alone(image);
    packed_answer(a)
}

// Whether the bytes are a schedule, up to its events. None is built.
pub fn check_schedule(schedule: &[u8]) -> u64
    ensures { result ≡ schedule_checked schedule.now }
{
    let b = codec::check_schedule(schedule);
    packed_answer(b)
}

// How many endings the schedule has.
fn counted(schedule: &[u8]) -> Result<u64, Refusal>
    ensures gives { result ≡ given (page_answer schedule.now) (count_of schedule.now) }
    ensures small { IfOk result (λ v. v < 72057594037927936) }
{
    let count = pages::count_endings(schedule)?;
    Ok(u64::from(count))
}

// How many endings the schedule has: the value.
pub fn count_endings(schedule: &[u8]) -> u64
    ensures { result ≡ endings_counted schedule.now }
{
    packed_result(counted(schedule))
}

// Ending k as an image, in the form of the schedule's, into the front of the buffer.
pub fn ending(schedule: &[u8], k: u64, buffer: &mut [u8]) -> u64
    ensures answers { result ≡ ending_given schedule.now k (length buffer.old) }
    ensures bytes { buffer.new ≡ ending_written schedule.now k buffer.old }
{
    let given = pages::ending_of(schedule, k, buffer);
    packed_answer(given)
}
