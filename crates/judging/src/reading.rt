// A history's bytes: its numbers, and the parts of an operation. Kind and answer stay bytes: `judge_history` refuses a wrong one with 9.
ghost use Rattle.std.specs.Prelude.{◌≡◌, Bool, ◌+◌, ◌*◌, ◌≤◌, ◌<◌, length};
ghost use Rattle.lawful.specs.Demand3.{Bytes};
ghost use Rattle.judging.specs.History.{count_in, first_count, last_count, operation_place, kind_at, began_at, ended_at, answer_at, item_at};
ghost use Rattle.judging.specs.Place.{Whole};

use codec::{long_at, word_at};

fn place_of(a: u8, b: u8, i: usize) -> usize
    requires { i ≤ 255 }
    ensures { result ≡ 3 + a * 4 + b * 4 + i * 22 }
{
    3 + (a as usize) * 4 + (b as usize) * 4 + i * 22
}

// Where operation i begins.
pub fn operation_at(h: &[u8], i: usize) -> usize
    requires { (3 ≤ length h.now) × (i ≤ 255) }
    ensures { result ≡ operation_place h.now i }
{
    place_of(h[1], h[2], i)
}

// The bytes of a history, as many as its three counts say. That each is below 256 is said too: a proof knows it of a slice, not of one in a field.
#[derive(Clone, Copy)]
pub struct History<'a> {
    pub bytes: &'a [u8],
    ghost whole: { Whole bytes.now },
    ghost in_range: { Bytes bytes.now },
}

impl History<'_> {
    // How many operations there are.
    pub fn count(self) -> usize
        ensures { result ≡ count_in self.entry.bytes.now }
    {
        self.bytes[0] as usize
    }

    pub fn kind(self, i: usize) -> u8
        requires { i < count_in self.bytes.now }
        ensures { result ≡ kind_at self.entry.bytes.now i }
    {
        self.bytes[operation_at(self.bytes, i)]
    }

    pub fn began(self, i: usize) -> u64
        requires { i < count_in self.bytes.now }
        ensures { result ≡ began_at self.entry.bytes.now i }
    {
        long_at(self.bytes, operation_at(self.bytes, i) + 1)
    }

    pub fn ended(self, i: usize) -> u64
        requires { i < count_in self.bytes.now }
        ensures { result ≡ ended_at self.entry.bytes.now i }
    {
        long_at(self.bytes, operation_at(self.bytes, i) + 9)
    }

    pub fn answer(self, i: usize) -> u8
        requires { i < count_in self.bytes.now }
        ensures { result ≡ answer_at self.entry.bytes.now i }
    {
        self.bytes[operation_at(self.bytes, i) + 17]
    }

    pub fn item(self, i: usize) -> u32
        requires { i < count_in self.bytes.now }
        ensures { result ≡ item_at self.entry.bytes.now i }
    {
        word_at(self.bytes, operation_at(self.bytes, i) + 18)
    }
}
