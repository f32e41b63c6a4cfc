// What follows from an image's form, and the test for 20.
ghost use Rattle.std.specs.Prelude.{◌≡◌, true, ◌≤◌};
ghost use Rattle.answer.specs.Answers.{Taken};
ghost use Rattle.image.specs.Form.{known, width_of, top_of, head_lines, node_place, image_size};
ghost use Rattle.image.specs.Layout.{image_shape};
ghost use Rattle.image.specs.Refusals.{fitting};

use super::heads::any_above;
use super::{Image, Shape};
use answer::{Answer, Refusal, Reply};

// Whether the form is read and written.
pub fn is_known(form: u8) -> bool
    ensures { result ≡ known form }
{
    matches!(form, 1 | 2 | 4)
}

// The largest index.
pub fn top_of(form: u8) -> u64
    ensures { result ≡ top_of form }
{
    match form {
        2 | 3 => u64::MAX,
        _ => u32::MAX as u64,
    }
}

// How many bytes an index has.
pub fn width_of(form: u8) -> usize
    requires { known form ≡ true }
    ensures { result ≡ width_of form }
{
    if form == 2 { 8 } else { 4 }
}

// How many head lines there are.
pub fn head_lines(z: Shape) -> usize
    ensures { result ≡ head_lines z }
{
    match z.form {
        4 => z.t as usize,
        3 => 2,
        _ => 1,
    }
}

// Where node i begins.
pub fn place_of(z: Shape, i: usize) -> usize
    requires { (known z.form ≡ true) × (i ≤ 255) }
    ensures { result ≡ node_place z i }
{
    match z.form {
        2 => 14 + i * 13,
        4 => 7 + z.t as usize * 4 + i * 9,
        _ => 10 + i * 9,
    }
}

// How many bytes an image of this shape has.
pub fn size_of(z: Shape) -> usize
    requires { known z.form ≡ true }
    ensures { result ≡ image_size z }
{
    place_of(z, z.n as usize)
}

// 20, the head first. The image is read where the call has it, as in the tests of 6, 7 and 8.
pub fn fitting_of(g: Image) -> Answer
    requires { (g.n ≤ 64) × (head_lines (image_shape g) ≤ 8) }
    ensures { result ≡ fitting g Taken }
{
    let top = top_of(g.form);
    let lines = head_lines(g.shape());
    let heads = g.heads;
    if any_above(heads, lines, top) {
        return Err(Refusal::Narrow(g.n as u32));
    }
    let n = g.n as usize;
    if let Some(i) = g.nodes[..n].iter().position(|v| top < v.index) {
        return Err(Refusal::Narrow(i as u32));
    }
    Ok(Reply::Taken)
}
