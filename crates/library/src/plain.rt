// The plain way to a page: all images that a schedule with write-backs added can leave.
ghost use Rattle.std.specs.Prelude.{◌≡◌, length};
ghost use Rattle.plainway.specs.Plainly.{plain_written};
ghost use Rattle.plaincalls.specs.Given.{plain_given};

// All images, one after the other, into the buffer's first bytes: the value is how many there are.
pub fn uq_plain_page(schedule: &[u8], buffer: &mut [u8]) -> u64
    ensures answers { result ≡ plain_given schedule.now (length buffer.old) }
    ensures bytes { buffer.new ≡ plain_written schedule.now buffer.old }
{
    plaincalls::plain_page(schedule, buffer)
}
