// Lines into what is left of a buffer: each goes there whole, or nothing of it does.
ghost use Rattle.std.specs.Prelude.{◌≡◌, ◌+◌, ◌-◌, ◌≤◌, ◌<◌, length, take};
ghost use Rattle.lists.specs.Tab.{over};
ghost use Rattle.image.specs.Form.{head_lines};
ghost use Rattle.image.specs.Layout.{image_shape};
ghost use Rattle.page.specs.Printed.{ending_line, first_line};
ghost use Rattle.printing.specs.Bounds.{line_room};
ghost use Rattle.printing.specs.Lines.{if_fits, refused_text};

use super::lines::put_number_place;
use super::put;
use super::whole::{FIRST, LINE, write_ending, write_first_line};
use image::Image;

// The first n bytes of s. As all here, it gives the place behind what it wrote: `at` where there is no room.
fn fit_front(b: &mut [u8], at: usize, s: &[u8], n: usize) -> usize
    requires { (at ≤ length b.old) × (n ≤ length s.now) }
    ensures place { result ≡ at + length (if_fits (length b.old - at) (take n s.now)) }
    ensures bytes { b.new ≡ over b.old at (if_fits (length b.old - at) (take n s.now)) }
{
    if b.len() - at < n {
        return at;
    }
    put(b, at, &s[..n])
}

// The line of ending k, written apart first: there may be less room than the longest line takes.
fn fit_narrow(b: &mut [u8], at: usize, k: u32, g: Image) -> usize
    requires { (g.n ≤ 64) × (head_lines (image_shape g) ≤ 8) × (k < 65536) × (at ≤ length b.old) }
    ensures place { result ≡ at + length (if_fits (length b.old - at) (ending_line k g)) }
    ensures bytes { b.new ≡ over b.old at (if_fits (length b.old - at) (ending_line k g)) }
    ensures short { length (ending_line k g) ≤ line_room 64 }
{
    let mut line = [0u8; LINE];
    let n = write_ending(&mut line, 0, k, g);
    fit_front(b, at, &line, n)
}

// The line of ending k.
pub fn fit_ending(b: &mut [u8], at: usize, k: u32, g: Image) -> usize
    requires { (g.n ≤ 64) × (head_lines (image_shape g) ≤ 8) × (k < 65536) × (at ≤ length b.old) }
    ensures place { result ≡ at + length (if_fits (length b.old - at) (ending_line k g)) }
    ensures bytes { b.new ≡ over b.old at (if_fits (length b.old - at) (ending_line k g)) }
    ensures short { length (ending_line k g) ≤ line_room 64 }
{
    if b.len() - at < LINE {
        return fit_narrow(b, at, k, g);
    }
    write_ending(b, at, k, g)
}

// The page's first line.
pub fn fit_first_line(b: &mut [u8], at: usize, t: u8, n: u8, events: u16, endings: u32) -> usize
    requires { (t ≤ 8) × (n ≤ 64) × (events ≤ 4096) × (endings ≤ 65536) × (at ≤ length b.old) }
    ensures place { result ≡ at + length (if_fits (length b.old - at) (first_line t n events endings)) }
    ensures bytes { b.new ≡ over b.old at (if_fits (length b.old - at) (first_line t n events endings)) }
{
    let mut line = [0u8; FIRST];
    let q = write_first_line(&mut line, 0, t, n, events, endings);
    fit_front(b, at, &line, q)
}

// A refusal's number and place, in a line: words, two numbers of 32 bits and the line's end are at most 33 bytes.
pub fn fit_number_place(b: &mut [u8], at: usize, number: u32, place: u32) -> usize
    requires { at ≤ length b.old }
    ensures place { result ≡ at + length (if_fits (length b.old - at) (refused_text number place)) }
    ensures bytes { b.new ≡ over b.old at (if_fits (length b.old - at) (refused_text number place)) }
{
    let mut line = [0u8; 33];
    let n = put_number_place(&mut line, 0, number as u64, place as u64);
    fit_front(b, at, &line, n)
}
