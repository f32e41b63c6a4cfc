// What is written into a lent buffer. The room that it has stands behind an item (2 bytes).
ghost use Rattle.std.specs.Prelude.{◌≤◌, length};

use answer::{Answer, told_of};
use compare::contents::{contents_of, wide_contents_of};
use compare::output::{Hex, Output};
use std::io;
use std::io::Write;
use stream::{byte, half};

// Number, place and the whole of what was lent.
fn answer_lent<F: FnOnce(&mut [u8]) -> Answer>(
    out: &mut Output,
    room: u16,
    write: F,
) -> io::Result<()>
    requires { F.IsAlwaysCallable write }
{
    let mut buffer = [0xaa; 65536];
    let lent = &mut buffer[..usize::from(room)];
    let told = told_of(write(lent));
    writeln!(out, "{} {} {}", told.number, told.place, Hex(lent))
}

// An item's first bytes and the last n, which are all where there are fewer.
pub(crate) fn without_last(s: &[u8], n: usize) -> (&[u8], &[u8]) {
    s.split_at(s.len().saturating_sub(n))
}

// An image converted.
pub(crate) fn answer_converted<F: FnOnce(&[u8], &mut [u8]) -> Answer>(
    s: &[u8],
    out: &mut Output,
    convert: F,
) -> io::Result<()>
    requires { F.IsAlwaysCallable convert }
{
    let (image, behind) = without_last(s, 2);
    answer_lent(out, half(behind, 0), |b| convert(image, b))
}

// An image exported; behind it stand T (1 byte) and the room.
pub(crate) fn answer_exported(s: &[u8], out: &mut Output) -> io::Result<()> {
    let (image, behind) = without_last(s, 3);
    let t = byte(behind, 0);
    answer_lent(out, half(behind, 1), |b| {
        converting::export_desks(image, t, b)
    })
}

// Contents written as an image.
pub(crate) fn answer_contents(s: &[u8], out: &mut Output) -> io::Result<()> {
    let g = contents_of(s);
    answer_lent(out, half(s, 581), |b| codec::write_image(g, b))
}

pub(crate) fn answer_wide_contents(s: &[u8], out: &mut Output) -> io::Result<()> {
    let g = wide_contents_of(s);
    answer_lent(out, half(s, 842), |b| codec::write_image(g, b))
}
