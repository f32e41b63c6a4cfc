// Images to and from "UQP", one head index per desk.
ghost use Rattle.std.specs.Prelude.{◌≡◌, ◌≤◌, length};
ghost use Rattle.answer.specs.Answers.{told};
ghost use Rattle.image.specs.Form.{head_lines};
ghost use Rattle.image.specs.Layout.{heads_of, image_shape};
ghost use Rattle.converting.specs.Desks.{reheaded, Leaves, room_answer, put_as, desks_answer, import_answer, imported, export_answer, exported};

use answer::{Answer, Refusal, Reply};
use codec::sound::sound_at;
use codec::{check_alone, form_in, image_in, put_image, shape_in};
use image::{Image, Shape, head_lines, head_of, shape_of, size_of, threads_fit};

// One index in every head line.
fn heads_with(z: Shape, h: u64) -> [u64; 8]
    requires { head_lines z ≤ 8 }
    ensures { result ≡ heads_of z (λ k. h) }
{
    let count = head_lines(z);
    let mut heads = image::no_heads();
    for k in 0..count {
        heads[k] = h;
    }
    heads
}

// The image in another form, for t threads, with its head index in every head line.
fn reheaded_of(g: Image, form: u8, t: u8) -> Image
    requires { (head_lines (image_shape g) ≤ 8) × (t ≤ 8) }
    ensures { result ≡ reheaded form t g }
{
    let h = head_of(g.heads, g.shape());
    let heads = heads_with(Shape { form, n: g.n, t }, h);
    Image {
        heads,
        form,
        t,
        ..g
    }
}

// 1, 2, 3, 4, 1, 6, 7, 8: what is wrong with an image that is to be imported.
fn check_desks(s: &[u8]) -> Answer
    ensures { result ≡ desks_answer s.now }
{
    let len = s.len();
    if len < 7 {
        return Err(Refusal::Length);
    }
    let z = shape_in(s);
    if z.form != 4 {
        return Err(Refusal::Mark);
    }
    shape_of(z, z.t)?;
    if len != size_of(z) {
        return Err(Refusal::Length);
    }
    sound_at(s, z)
}

// The image in another form, into the buffer's first bytes, where there is room.
fn put_as(s: &[u8], b: &mut [u8], form: u8, t: u8) -> Answer
    requires { Leaves s.now form t }
    ensures answers { result ≡ room_answer form t s.now (length b.old) }
    ensures bytes { b.new ≡ put_as form t s.now b.old }
{
    let g = image_in(s);
    let g = reheaded_of(g, form, t);
    if b.len() < size_of(g.shape()) {
        return Err(Refusal::Room);
    }
    put_image(b, g);
    Ok(Reply::Taken)
}

// An image with one head index per desk as one of "UQI" version 1, its head the largest.
pub fn import_desks(s: &[u8], b: &mut [u8]) -> Answer
    ensures answers { told result ≡ told (import_answer s.now (length b.old)) }
    ensures bytes { b.new ≡ imported s.now b.old }
{
    check_desks(s)?;
    put_as(s, b, 1, 0)
}

// An image of "UQI" version 1 as one for t desks, its head written t times.
pub fn export_desks(s: &[u8], t: u8, b: &mut [u8]) -> Answer
    ensures answers { told result ≡ told (export_answer s.now t (length b.old)) }
    ensures bytes { b.new ≡ exported s.now t b.old }
{
    if s.len() < 10 {
        return Err(Refusal::Length);
    }
    if form_in(s) != 1 {
        return Err(Refusal::Mark);
    }
    check_alone(s)?;
    if !threads_fit(t) {
        return Err(Refusal::Threads);
    }
    put_as(s, b, 4, t)
}
