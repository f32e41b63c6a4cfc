// The lines of the printed page.
ghost use Rattle.std.specs.Prelude.{◌≡◌, ◌+◌, ◌≤◌, ◌++◌, length, take};
ghost use Rattle.lists.specs.Tab.{over};
ghost use Rattle.lists.specs.Text.{decimal};
ghost use Rattle.page.specs.Printed.{items_text, first_line};
ghost use Rattle.printing.specs.Lines.{line_text, refused_text};

use super::{put, put_decimal, put_spaced};

// The first c items, each behind a blank; a dash where there are none.
fn put_items(b: &mut [u8], at: usize, items: [u32; 64], c: usize) -> usize
    requires { (c ≤ 64) × (at + length (items_text (take c items)) ≤ length b.old) }
    ensures { (result ≡ at + length (items_text (take c items))) × (b.new ≡ over b.old at (items_text (take c items))) }
{
    if c == 0 {
        return put(b, at, b" -");
    }
    put_spaced(b, at, items, c)
}

// A word, and a number behind it.
fn put_named(b: &mut [u8], at: usize, word: &[u8], x: u64) -> usize
    requires { at + length (word.now ++ decimal x) ≤ length b.old }
    ensures { (result ≡ at + length (word.now ++ decimal x)) × (b.new ≡ over b.old at (word.now ++ decimal x)) }
{
    let p = put(b, at, word);
    put_decimal(b, p, x)
}

// An ending's line: its number, its head index, its first c items.
pub fn put_line(b: &mut [u8], at: usize, k: u64, head: u64, items: [u32; 64], c: usize) -> usize
    requires { (c ≤ 64) × (at + length (line_text k head (take c items)) ≤ length b.old) }
    ensures { (result ≡ at + length (line_text k head (take c items))) × (b.new ≡ over b.old at (line_text k head (take c items))) }
{
    let p = put_decimal(b, at, k);
    let q = put_named(b, p, b" ", head);
    let s = put_items(b, q, items, c);
    put(b, s, b"\n")
}

// Mark, schedule version, T, N, event count and ending count.
pub fn put_first_line(b: &mut [u8], at: usize, t: u64, n: u64, events: u64, endings: u64) -> usize
    requires { at + length (first_line t n events endings) ≤ length b.old }
    ensures { (result ≡ at + length (first_line t n events endings)) × (b.new ≡ over b.old at (first_line t n events endings)) }
{
    let p = put_named(b, at, b"UQS 1 threads ", t);
    let q = put_named(b, p, b" nodes ", n);
    let s = put_named(b, q, b" events ", events);
    let u = put_named(b, s, b" endings ", endings);
    put(b, u, b"\n")
}

// A refusal's number and place.
pub fn put_number_place(b: &mut [u8], at: usize, number: u64, place: u64) -> usize
    requires { at + length (refused_text number place) ≤ length b.old }
    ensures { (result ≡ at + length (refused_text number place)) × (b.new ≡ over b.old at (refused_text number place)) }
{
    let p = put_named(b, at, b"refused ", number);
    let q = put_named(b, p, b" at ", place);
    put(b, q, b"\n")
}
