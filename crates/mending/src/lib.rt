// Mending a damaged image: linked flags cleared until 6, 7 and 8 pass it, and a list of the nodes that were changed.
// Public call: mend_image.

#![tactic(auto)]

mod reasons;
mod writing;

ghost use Rattle.std.specs.Prelude.{◌≡◌, length};
ghost use Rattle.answer.specs.Answers.{given, Taken};
ghost use Rattle.mending.specs.Bytes.{mend_shape, mend_answer, mend_count, mend_written, list_written};

use answer::{Answer, Refusal};
use codec::sound::Lying;
use reasons::{Damaged, spare_at};

// 1, 2, 3, 1: what is wrong with the image before its nodes are looked at. "UQP" has no mender.
fn shape_at(s: &[u8]) -> Answer
    ensures { result ≡ mend_shape s.now Taken }
{
    if s.len() < 10 {
        return Err(Refusal::Length);
    }
    if codec::form_in(s) == 4 {
        return Err(Refusal::Mark);
    }
    codec::shape_part(s, 0, 0)
}

// The image that the bytes are, mended, into the first bytes of b; the nodes that were changed, in node order, each with the reason
// (6, 7 or 8), two bytes an entry, into the first bytes of l. It gives how many nodes were changed.
pub fn mend_image(s: &[u8], b: &mut [u8], l: &mut [u8]) -> Result<u8, Refusal>
    ensures counts { result ≡ given (mend_answer s.now (length b.old) (length l.old)) (mend_count s.now (length b.old) (length l.old)) }
    ensures image { b.new ≡ mend_written s.now b.old l.old }
    ensures list { l.new ≡ list_written s.now b.old l.old }
{
    shape_at(s)?;
    if b.len() < s.len() {
        return Err(Refusal::Room);
    }
    let z = codec::shape_in(s);
    let lying = Lying { bytes: s, shape: z };
    let spare = spare_at(&lying);
    let d = Damaged { lying, spare };
    let count = d.changed();
    if l.len() < count * 2 {
        return Err(Refusal::Room);
    }
    let g = d.mended();
    codec::put_image(b, g);
    d.put_changes(l);
    Ok(count as u8)
}
