// A plain way to the same page (request 108): for each line nothing or one write-back moment is picked, the schedule run with just those added, and the image that
// is left noted, repeats after the first dropped. Every pick is run.
// Public call: plain_page. What else stands here is for the crates above.

#![tactic(auto)]

pub mod noting;
pub mod way;

ghost use Rattle.std.specs.Prelude.{◌≡◌, length};
ghost use Rattle.answer.specs.Answers.{given};
ghost use Rattle.plainway.specs.Plainly.{plain_answer, plain_count, plain_written};

use answer::Refusal;
use noting::note_some;
use way::way_of;

// All images, one after the other, in the first bytes of the lent buffer; the bytes after them stay. How many there are. On a refusal nothing is written.
pub fn plain_page(s: &[u8], b: &mut [u8]) -> Result<u32, Refusal>
    ensures counts { result ≡ given (plain_answer s.now (length b.old)) (plain_count s.now (length b.old)) }
    ensures bytes { b.new ≡ plain_written s.now b.old }
{
    let w = way_of(s, b.len())?;
    let count = note_some(s, w, 0, w.runs, b, 0);
    Ok(count)
}
