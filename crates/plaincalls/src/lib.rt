// The plain way to a page, on bytes: all images of a schedule.

#![tactic(auto)]

ghost use Rattle.std.specs.Prelude.{◌≡◌, length};
ghost use Rattle.plainway.specs.Plainly.{plain_written};
ghost use Rattle.plaincalls.specs.Given.{plain_given};

use calls::packing::packed_result;

// All images, one after the other, into the buffer's first bytes: the value is how many there are.
pub fn plain_page(schedule: &[u8], buffer: &mut [u8]) -> u64
    ensures answers { result ≡ plain_given schedule.now (length buffer.old) }
    ensures bytes { buffer.new ≡ plain_written schedule.now buffer.old }
{
    let count = plainway::plain_page(schedule, buffer);
    packed_result(count.map(|n| n as u64))
}
