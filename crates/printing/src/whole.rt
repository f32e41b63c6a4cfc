// Whole lines into a buffer that has room for the longest line of its kind.
ghost use Rattle.std.specs.Prelude.{◌≡◌, ◌+◌, ◌≤◌, ◌<◌, length};
ghost use Rattle.lists.specs.Tab.{over};
ghost use Rattle.image.specs.Form.{head_lines};
ghost use Rattle.image.specs.Layout.{image_shape};
ghost use Rattle.page.specs.Printed.{ending_line, first_line, refused_line};
ghost use Rattle.printing.specs.Bounds.{line_room, first_room, refused_room};

use super::items::items_of;
use super::lines::{put_first_line, put_line, put_number_place};
use answer::{Answer, told_of};
use image::{Image, head_of};

// How many bytes the longest line of an ending and the longest first line have: lineRoom 64, firstRoom of specs/Bounds.
pub const LINE: usize = 731;

pub const FIRST: usize = 51;

// The line of ending k.
pub fn write_ending(b: &mut [u8], at: usize, k: u32, g: Image) -> usize
    requires { (g.n ≤ 64) × (head_lines (image_shape g) ≤ 8) × (k < 65536) × (at + line_room 64 ≤ length b.old) }
    ensures place { (result ≡ at + length (ending_line k g)) × (result ≤ at + line_room 64) }
    ensures bytes { b.new ≡ over b.old at (ending_line k g) }
{
    let heads = g.heads;
    let h = head_of(heads, g.shape());
    let i = items_of(g);
    let items = i.items;
    put_line(b, at, k as u64, h, items, i.count)
}

// The page's first line.
pub fn write_first_line(b: &mut [u8], at: usize, t: u8, n: u8, events: u16, endings: u32) -> usize
    requires { (t ≤ 8) × (n ≤ 64) × (events ≤ 4096) × (endings ≤ 65536) × (at + first_room ≤ length b.old) }
    ensures place { (result ≡ at + length (first_line t n events endings)) × (result ≤ at + first_room) }
    ensures bytes { b.new ≡ over b.old at (first_line t n events endings) }
{
    put_first_line(b, at, t as u64, n as u64, events as u64, endings as u64)
}

// The line of a refusal.
pub fn write_refused(b: &mut [u8], at: usize, a: Answer) -> usize
    requires { at + refused_room ≤ length b.old }
    ensures place { (result ≡ at + length (refused_line a)) × (result ≤ at + refused_room) }
    ensures bytes { b.new ≡ over b.old at (refused_line a) }
{
    let t = told_of(a);
    put_number_place(b, at, t.number as u64, t.place as u64)
}
