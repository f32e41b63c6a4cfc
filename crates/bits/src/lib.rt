// Sets of numbers as words: a number is in the set where its bit is set.

#![tactic(auto)]

ghost use Rattle.std.specs.Prelude.{◌≡◌, ℕ, ◌<◌};
ghost use Rattle.lists.specs.Find.{least, around, count};
ghost use Rattle.lists.specs.Word.{has, with, without};

// The lowest number in the set, 64 where there is none.
pub fn lowest(w: u64) -> u32
    ensures { result ≡ least (has w) 64 0 }
{
    u64::trailing_zeros(w)
}

// The next number of the set after i, going round: the lowest of those behind i, where there is one, else the lowest of all; 64 where there is none.
pub fn after(w: u64, i: u32) -> u32
    requires { i < 64 }
    ensures { result ≡ around (has w) 64 i }
{
    let behind = (w >> i) / 2;
    if behind == 0 {
        return lowest(w);
    }
    u64::trailing_zeros(behind) + (i + 1)
}

// How many numbers are in the set.
pub fn total(w: u64) -> u32
    ensures { result ≡ count (has w) 64 }
{
    u64::count_ones(w)
}

// Whether number i is in the set.
pub fn is_in(w: u64, i: u32) -> bool
    requires { i < 64 }
    ensures { result ≡ has w i }
{
    (w >> i) % 2 == 1
}

// The set with number i in it.
pub fn with_bit(w: u64, i: u32) -> u64
    requires { i < 64 }
    ensures { result ≡ with w i }
{
    if is_in(w, i) {
        return w;
    }
    w + (1u64 << i)
}

// The set without number i.
pub fn without_bit(w: u64, i: u32) -> u64
    requires { i < 64 }
    ensures { result ≡ without w i }
{
    if is_in(w, i) {
        return w - (1u64 << i);
    }
    w
}

// The same three for a set of numbers below 8, a byte of the record: each is the one above, at a wider word.
pub fn is_in8(w: u8, i: u32) -> bool
    requires { i < 8 }
    ensures { result ≡ has w i }
{
    is_in(w as u64, i)
}

pub fn with_bit8(w: u8, i: u32) -> u8
    requires { i < 8 }
    ensures { result ≡ with w i }
{
    with_bit(w as u64, i) as u8
}

pub fn without_bit8(w: u8, i: u32) -> u8
    requires { i < 8 }
    ensures { result ≡ without w i }
{
    without_bit(w as u64, i) as u8
}
