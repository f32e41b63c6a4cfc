// An image written into a lent buffer.
ghost use Rattle.std.specs.Prelude.{◌≡◌, length};
ghost use Rattle.answer.specs.Answers.{told};
ghost use Rattle.image.specs.Refusals.{write_answer, written};

use crate::images::put_image;
use answer::{Answer, Refusal, Reply};
use image::{Image, fitting_of, shape_of, size_of, sound_of};

// Writes the image into the buffer's first bytes, or nothing.
pub fn write_image(g: Image, b: &mut [u8]) -> Answer
    ensures answers { told result ≡ told (write_answer g (length b.old)) }
    ensures bytes { b.new ≡ written g b.old }
{
    let z = g.shape();
    shape_of(z, g.t)?;
    sound_of(g)?;
    fitting_of(g)?;
    if b.len() < size_of(z) {
        return Err(Refusal::Room);
    }
    put_image(b, g);
    Ok(Reply::Taken)
}
