// Images and schedules as bytes: whether they are taken, how many endings there are, and each ending.
ghost use Rattle.std.specs.Prelude.{◌≡◌, length};
ghost use Rattle.page.specs.Refusals.{ending_written};
ghost use Rattle.calls.specs.Calls.{image_checked, schedule_checked, endings_counted, ending_given};

// Whether the bytes are an image. None is built.
#[unsafe(no_mangle)]
pub extern "C" fn uq_check_image(image: &[u8]) -> u64
    ensures { result ≡ image_checked image.now }
{
    library::schedules::uq_check_image(image)
}

// Whether the bytes are a schedule, up to its events. None is built.
#[unsafe(no_mangle)]
pub extern "C" fn uq_check_schedule(schedule: &[u8]) -> u64
    ensures { result ≡ schedule_checked schedule.now }
{
    library::schedules::uq_check_schedule(schedule)
}

// How many endings the schedule has: the value.
#[unsafe(no_mangle)]
pub extern "C" fn uq_count_endings(schedule: &[u8]) -> u64
    ensures { result ≡ endings_counted schedule.now }
{
    library::schedules::uq_count_endings(schedule)
}

// Ending k as an image, in the form of the schedule's, into the front of the buffer.
#[unsafe(no_mangle)]
pub extern "C" fn uq_ending(schedule: &[u8], k: u64, buffer: &mut [u8]) -> u64
    ensures answers { result ≡ ending_given schedule.now k (length buffer.old) }
    ensures bytes { buffer.new ≡ ending_written schedule.now k buffer.old }
{
    library::schedules::uq_ending(schedule, k, buffer)
}
