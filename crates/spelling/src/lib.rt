// Schedules as words, a line each: what the lines say, and the answers of the calls that write and read them. Definitions; the code is in
// wordwriter, wordreader and desk.

#![tactic(auto)]

use std::fmt;

// A word, as far as it was read.
#[derive(Clone, Copy, Debug, PartialEq, Eq)]
pub enum Word {
    None,
    // By their key.
    Letters(u64),
    Number(u64),
    // A number of more than 64 bits.
    Beyond,
    Other,
}

// A line, as far as it was read: whether its remark has begun, its whole words (6 for more than five), the word that is being read.
#[derive(Clone, Copy)]
pub struct Line {
    pub remark: bool,
    pub count: u8,
    pub words: [Word; 5],
    pub word: Word,
}

// A word where a number is to stand that has a largest value; of two, the later one here is the worse.
#[derive(Clone, Copy, Debug, PartialEq, Eq)]
pub enum Grade {
    Fits,
    // A larger number.
    Large,
    // No number.
    Strange,
}

// What a line says.
#[derive(Clone, Copy, Debug, PartialEq, Eq)]
pub enum Act {
    Nothing,
    Nodes(u64),
    Threads(u64),
    // A head line, by its number where it names one of several, and its index.
    Head(Option<u64>, u64),
    // A node: its number, its linked byte, its index and its item.
    Node(u64, u64, u64, u64),
    // Events: kind, number and item, and how many like these.
    Events(u64, u64, u64, u64),
    Version(u64),
    Desks(u64),
    // It is not understood.
    Unknown,
    // A number is too large.
    TooLarge,
}

// What the lines said so far: the first fault; whether `nodes` stood; whether the image's form can no longer be said; the form, N, T and event count.
#[derive(Clone, Copy)]
pub struct Survey {
    pub fault: Option<Misread>,
    pub begun: bool,
    pub settled: bool,
    pub form: u8,
    pub n: u64,
    pub t: u64,
    pub count: u64,
}

// Why words are no schedule; lines are counted from 0.
#[derive(Clone, Copy, Debug, PartialEq, Eq)]
pub enum Misread {
    // A line is not understood.
    Strange(u64),
    // A number is too large for its field.
    Large(u64),
    // There are more than 65,535 events.
    Many(u64),
    // The lent buffer is too short.
    Room,
}

// As people count lines, from 1.
impl fmt::Display for Misread {
    fn fmt<W: fmt::Write>(&self, f: &mut fmt::Formatter<W>) -> fmt::Result {
        match *self {
            Misread::Strange(i) => write!(f, "line {}: not understood", i.saturating_add(1)),
            Misread::Large(i) => {
                write!(
                    f,
                    "line {}: a number too large for its field",
                    i.saturating_add(1)
                )
            }
            Misread::Many(i) => write!(f, "line {}: more than 65,535 events", i.saturating_add(1)),
            Misread::Room => write!(f, "no room"),
        }
    }
}

// What writing words gives: how many entries of the schedule were written, and their bytes.
#[derive(Clone, Copy, Debug, PartialEq, Eq)]
pub struct Spelled {
    pub entries: u32,
    pub bytes: usize,
}
