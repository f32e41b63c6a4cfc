// Printed text, written into a lent buffer: numbers in decimal, fixed words, the lines of a page.
// Each function is given the place where its text begins and gives the place behind it; the caller has room for it.

#![tactic(auto)]

ghost use Rattle.std.specs.Prelude.{◌≡◌, ℕ, ◌+◌, ◌<◌, ◌≤◌, length, take};
ghost use Rattle.lists.specs.Tab.{over};
ghost use Rattle.lists.specs.Text.{decimal};
ghost use Rattle.page.specs.Printed.{spaced};
ghost use Rattle.printing.specs.Digits.{four_digits, eight_digits};

pub mod fitting;
pub mod items;
pub mod lines;
pub mod stretch;
pub mod whole;

// The four digits of x, zeros in front among them. Each is a quotient of its own, so that none waits for another.
fn put_four(b: &mut [u8], at: usize, x: u32)
    requires { (x < 10000) × (at + 4 ≤ length b.old) }
    ensures { b.new ≡ over b.old at (four_digits x) }
{
    let h = x / 100;
    let l = x % 100;
    b[at] = 48 + ((h / 10) as u8);
    b[at + 1] = 48 + ((h % 10) as u8);
    b[at + 2] = 48 + ((l / 10) as u8);
    b[at + 3] = 48 + ((l % 10) as u8);
}

// The eight digits of x, zeros in front among them.
fn put_eight(b: &mut [u8], at: usize, x: u32)
    requires { (x < 100000000) × (at + 8 ≤ length b.old) }
    ensures { b.new ≡ over b.old at (eight_digits x) }
{
    put_four(b, at, x / 10000);
    put_four(b, at + 4, x % 10000);
}

// A number of at most four digits.
fn put_short(b: &mut [u8], at: usize, x: u32) -> usize
    requires { (x < 10000) × (at + length (decimal x) ≤ length b.old) }
    ensures { (result ≡ at + length (decimal x)) × (b.new ≡ over b.old at (decimal x)) }
{
    if x < 10 {
        b[at] = 48 + (x as u8);
        return at + 1;
    }
    if x < 100 {
        b[at] = 48 + ((x / 10) as u8);
        b[at + 1] = 48 + ((x % 10) as u8);
        return at + 2;
    }
    if x < 1000 {
        b[at] = 48 + ((x / 100) as u8);
        b[at + 1] = 48 + ((x / 10 % 10) as u8);
        b[at + 2] = 48 + ((x % 10) as u8);
        return at + 3;
    }
    put_four(b, at, x);
    at + 4
}

// The number x in decimal from `at` on; gives the place behind it. By hand, since the theorems speak of the bytes that `decimal` gives at a place.
// Twenty bytes are room for every number of 64 bits.
// The digits go in groups of four; only a number of more than twelve, which no page has, takes a further turn.
pub fn put_decimal(b: &mut [u8], at: usize, x: u64) -> usize
    requires { at + length (decimal x) ≤ length b.old }
    ensures { (result ≡ at + length (decimal x)) × (b.new ≡ over b.old at (decimal x)) }
{
    if x < 10000 {
        return put_short(b, at, x as u32);
    }
    if x < 100000000 {
        let p = put_short(b, at, (x / 10000) as u32);
        put_four(b, p, (x % 10000) as u32);
        return p + 4;
    }
    let l = (x % 100000000) as u32;
    if x < 1000000000000 {
        let p = put_short(b, at, (x / 100000000) as u32);
        put_eight(b, p, l);
        return p + 8;
    }
    let p = put_decimal(b, at, x / 100000000);
    put_eight(b, p, l);
    p + 8
}

// The same of a number of 32 bits, as an item is: its quotients take less.
fn put_item(b: &mut [u8], at: usize, x: u32) -> usize
    requires { at + length (decimal x) ≤ length b.old }
    ensures { (result ≡ at + length (decimal x)) × (b.new ≡ over b.old at (decimal x)) }
{
    if x < 10000 {
        return put_short(b, at, x);
    }
    if x < 100000000 {
        let p = put_short(b, at, x / 10000);
        put_four(b, p, x % 10000);
        return p + 4;
    }
    let p = put_short(b, at, x / 100000000);
    put_eight(b, p, x % 100000000);
    p + 8
}

// The bytes of s from `at` on; gives the place behind them.
pub fn put(b: &mut [u8], at: usize, s: &[u8]) -> usize
    requires { at + length s.now ≤ length b.old }
    ensures { (result ≡ at + length s.now) × (b.new ≡ over b.old at s.now) }
{
    let end = at + s.len();
    b[at..end].copy_from_slice(s);
    end
}

// Each of the first c items behind a blank.
pub fn put_spaced(b: &mut [u8], at: usize, items: [u32; 64], c: usize) -> usize
    requires { (c ≤ 64) × (at + length (spaced (take c items)) ≤ length b.old) }
    ensures { (result ≡ at + length (spaced (take c items))) × (b.new ≡ over b.old at (spaced (take c items))) }
{
    let mut p = at;
    for i in 0..c {
        b[p] = 32;
        let x = items[i];
        let q = put_item(b, p + 1, x);
        p = q;
    }
    p
}
