// Numbers and marks as bytes, read and written.
ghost use Rattle.std.specs.Prelude.{◌≡◌, ◌+◌, ◌*◌, ◌≤◌, [], ◌∷◌, length, true};
ghost use Rattle.lists.specs.Tab.{over};
ghost use Rattle.image.specs.Bytes.{num_of, le, le4, at2, at4, at_w};
ghost use Rattle.image.specs.Form.{known, width_of};
ghost use Rattle.image.specs.Layout.{marked, form_in, shape_in};

use image::Shape;

fn num(a: u8, b: u8, c: u8, d: u8) -> u32
    ensures { result ≡ num_of (a ∷ b ∷ c ∷ d ∷ []) }
{
    (a as u32) + (b as u32) * 256 + (c as u32) * 65536 + (d as u32) * 16777216
}

// The number of 32 bits at a place.
pub fn word_at(s: &[u8], at: usize) -> u32
    requires { at + 4 ≤ length s.now }
    ensures { result ≡ at4 s.now at }
{
    num(s[at], s[at + 1], s[at + 2], s[at + 3])
}

fn half(a: u8, b: u8) -> u16
    ensures { result ≡ num_of (a ∷ b ∷ []) }
{
    (a as u16) + (b as u16) * 256
}

// The number of 16 bits at a place.
pub fn half_at(s: &[u8], at: usize) -> u16
    requires { at + 2 ≤ length s.now }
    ensures { result ≡ at2 s.now at }
{
    half(s[at], s[at + 1])
}

fn joined_words(a: u32, b: u32) -> u64
    ensures { result ≡ a + b * 4294967296 }
{
    (a as u64) + (b as u64) * 4294967296
}

// The number of 64 bits at a place.
pub fn long_at(s: &[u8], at: usize) -> u64
    requires { at + 8 ≤ length s.now }
    ensures { result ≡ at_w 8 s.now at }
{
    let low = word_at(s, at);
    let high = word_at(s, at + 4);
    joined_words(low, high)
}

// The index at a place, of the form's width.
pub fn index_in(s: &[u8], form: u8, at: usize) -> u64
    requires { (known form ≡ true) × (at + width_of form ≤ length s.now) }
    ensures { result ≡ at_w (width_of form) s.now at }
{
    if form == 2 {
        return long_at(s, at);
    }
    word_at(s, at) as u64
}

// The four lowest bytes of a number.
pub fn put_word(b: &mut [u8], at: usize, x: u64)
    requires { at + 4 ≤ length b.old }
    ensures { b.new ≡ over b.old at (le4 x) }
{
    b[at] = (x % 256) as u8;
    b[at + 1] = (x / 256 % 256) as u8;
    b[at + 2] = (x / 256 / 256 % 256) as u8;
    b[at + 3] = (x / 256 / 256 / 256 % 256) as u8;
}

fn put_long(b: &mut [u8], at: usize, x: u64)
    requires { at + 8 ≤ length b.old }
    ensures { b.new ≡ over b.old at (le 8 x) }
{
    put_word(b, at, x);
    put_word(b, at + 4, x / 256 / 256 / 256 / 256);
}

pub fn put_index(b: &mut [u8], form: u8, at: usize, x: u64)
    requires { (known form ≡ true) × (at + width_of form ≤ length b.old) }
    ensures { b.new ≡ over b.old at (le (width_of form) x) }
{
    if form == 2 {
        put_long(b, at, x);
        return;
    }
    put_word(b, at, x);
}

// Whether the bytes begin with these three letters and this version.
// Each test has its own return: joined by && they are values that meet, and the proof is twice as long.
pub fn is_marked(s: &[u8], x: u8, y: u8, z: u8, v: u8) -> bool
    requires { 5 ≤ length s.now }
    ensures { result ≡ marked x y z v s.now }
{
    if s[0] != x {
        return false;
    }
    if s[1] != y {
        return false;
    }
    if s[2] != z {
        return false;
    }
    if s[3] != v {
        return false;
    }
    s[4] == 0
}

// The form that the bytes have by their mark and version; 0 where they have none.
pub fn form_in(s: &[u8]) -> u8
    requires { 5 ≤ length s.now }
    ensures { result ≡ form_in s.now }
{
    if is_marked(s, 85, 81, 73, 1) {
        return 1;
    }
    if is_marked(s, 85, 81, 73, 2) {
        return 2;
    }
    if is_marked(s, 85, 81, 80, 1) {
        return 4;
    }
    0
}

// The shape that the bytes have: T stands behind N, in "UQP" alone.
pub fn shape_in(s: &[u8]) -> Shape
    requires { 7 ≤ length s.now }
    ensures { result ≡ shape_in s.now }
{
    let form = form_in(s);
    let n = s[5];
    if form == 4 {
        return Shape { form, n, t: s[6] };
    }
    Shape { form, n, t: 0 }
}

// T as the bytes hold it; zero where they hold none.
pub fn own_threads(s: &[u8]) -> u8
    ensures { result ≡ (shape_in s.now).t }
{
    if s.len() < 7 {
        return 0;
    }
    let z = shape_in(s);
    z.t
}
