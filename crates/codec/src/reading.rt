// An image read from bytes, alone or in front of others.
ghost use Rattle.std.specs.Prelude.{◌≡◌, ◌≤◌};
ghost use Rattle.answer.specs.Answers.{Taken, given};
ghost use Rattle.image.specs.Refusals.{image_answer, alone_answer};
ghost use Rattle.image.specs.Layout.{image_in};
ghost use Rattle.codec.specs.Parts.{shape};

use crate::bytes::{own_threads, shape_in};
use crate::images::image_in;
use crate::sound::sound_at;
use answer::{Answer, Refusal, Reply};
use image::{Image, shape_of, size_of};

// 1, 2, 3, 4, 1: what is wrong with the image that the bytes begin with before its nodes are looked at, for t threads, `more` bytes behind it.
pub fn shape_part(s: &[u8], t: u8, more: usize) -> Answer
    requires { more ≤ 49152 }
    ensures { result ≡ shape t more s.now Taken }
{
    let len = s.len();
    if len < 10 {
        return Err(Refusal::Length);
    }
    let z = shape_in(s);
    shape_of(z, t)?;
    if len != size_of(z) + more {
        return Err(Refusal::Length);
    }
    Ok(Reply::Taken)
}

// 1, 2, 3, 4, 1, 6, 7, 8. It builds no image.
pub fn check_part(s: &[u8], t: u8, more: usize) -> Answer
    requires { more ≤ 49152 }
    ensures { result ≡ image_answer t more s.now }
{
    shape_part(s, t, more)?;
    let z = shape_in(s);
    sound_at(s, z)
}

// The image that the bytes begin with, for t threads, `more` bytes behind it; or what is wrong.
pub fn read_part(s: &[u8], t: u8, more: usize) -> Result<Image, Refusal>
    requires { more ≤ 49152 }
    ensures { result ≡ given (image_answer t more s.now) (image_in s.now) }
{
    check_part(s, t, more)?;
    Ok(image_in(s))
}

// What is wrong with an image alone: it agrees with itself.
pub fn check_alone(s: &[u8]) -> Answer
    ensures { result ≡ alone_answer s.now }
{
    let t = own_threads(s);
    check_part(s, t, 0)
}
