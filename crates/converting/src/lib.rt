// Images from version 1 to version 2 and back, and to and from "UQP".
// Public calls: widen, narrow, import_desks, export_desks.

#![tactic(auto)]

mod desks;

ghost use Rattle.std.specs.Prelude.{◌≡◌, true, false, length};
ghost use Rattle.answer.specs.Answers.{told};
ghost use Rattle.image.specs.Form.{known, per_desk};
ghost use Rattle.converting.specs.Converted.{convert_answer, converted, widen_answer, widened, narrow_answer, narrowed};

use answer::{Answer, Refusal, Reply};
use codec::{check_alone, form_in, image_in, put_image};
pub use desks::{export_desks, import_desks};
use image::{fitting_of, size_of};

// From one form with one head line to another, into the buffer's first bytes, or nothing. Both conversions are this one; the two forms
// are numbers, since const parameters in their place would be no plainer.
fn convert(s: &[u8], b: &mut [u8], from: u8, to: u8) -> Answer
    requires { (known to ≡ true) × (per_desk to ≡ false) }
    ensures answers { result ≡ convert_answer from to s.now (length b.old) }
    ensures bytes { b.new ≡ converted from to s.now b.old }
{
    if s.len() < 10 {
        return Err(Refusal::Length);
    }
    if form_in(s) != from {
        return Err(Refusal::Mark);
    }
    check_alone(s)?;
    let mut g = image_in(s);
    g.form = to;
    fitting_of(g)?;
    if b.len() < size_of(g.shape()) {
        return Err(Refusal::Room);
    }
    put_image(b, g);
    Ok(Reply::Taken)
}

// An image of version 1 as one of version 2.
pub fn widen(s: &[u8], b: &mut [u8]) -> Answer
    ensures answers { told result ≡ told (widen_answer s.now (length b.old)) }
    ensures bytes { b.new ≡ widened s.now b.old }
{
    convert(s, b, 1, 2)
}

// An image of version 2 as one of version 1, where head and every index fit.
pub fn narrow(s: &[u8], b: &mut [u8]) -> Answer
    ensures answers { told result ≡ told (narrow_answer s.now (length b.old)) }
    ensures bytes { b.new ≡ narrowed s.now b.old }
{
    convert(s, b, 2, 1)
}
