// Pieces of rows and of sentences.
use crate::shapes::{line_of, per_desk};
use image::{Content, Shape};
use machine::{Line, Machine};
use std::fmt;

// The event of a row, `-` where it tells of the start.
#[derive(Clone, Copy, Debug)]
pub struct At(pub Option<u16>);

impl fmt::Display for At {
    fn fmt<W: fmt::Write>(&self, f: &mut fmt::Formatter<W>) -> fmt::Result {
        match self.0 {
            Some(event) => write!(f, "{event}"),
            None => write!(f, "-"),
        }
    }
}

// A1 to A12, D1 to D7, the stores S3 and S6 of "UQP", and the fences F10, F3 and F6.
#[derive(Clone, Copy, Debug)]
pub struct Step(pub u8);

impl fmt::Display for Step {
    fn fmt<W: fmt::Write>(&self, f: &mut fmt::Formatter<W>) -> fmt::Result {
        let step = self.0;
        match step {
            Machine::S3 => write!(f, "S3"),
            Machine::S6 => write!(f, "S6"),
            Machine::F10 => write!(f, "F10"),
            Machine::F3 => write!(f, "F3"),
            Machine::F6 => write!(f, "F6"),
            _ if step <= Machine::A12 => write!(f, "A{step}"),
            _ => write!(f, "D{}", step - Machine::A12),
        }
    }
}

// A line by what it belongs to.
#[derive(Clone, Copy, Debug)]
pub struct LineName {
    pub shape: Shape,
    pub line: u8,
}

impl fmt::Display for LineName {
    fn fmt<W: fmt::Write>(&self, f: &mut fmt::Formatter<W>) -> fmt::Result {
        match line_of(self.shape, self.line) {
            Line::OfHead(k) if per_desk(self.shape) => write!(f, "head of desk {k}"),
            Line::OfHead(_) => write!(f, "Head"),
            Line::OfNode(i) => write!(f, "node {i}"),
        }
    }
}

// The line itself, in a sentence.
#[derive(Clone, Copy, Debug)]
pub struct LineWords(pub LineName);

impl fmt::Display for LineWords {
    fn fmt<W: fmt::Write>(&self, f: &mut fmt::Formatter<W>) -> fmt::Result {
        let name = self.0;
        match line_of(name.shape, name.line) {
            Line::OfHead(k) if per_desk(name.shape) => write!(f, "the head line of desk {k}"),
            _ => write!(f, "the line of {name}"),
        }
    }
}

// A line with a content, in words.
#[derive(Clone, Copy, Debug)]
pub struct Held {
    pub shape: Shape,
    pub line: u8,
    pub content: Content,
}

impl Held {
    fn is_head(&self) -> bool {
        match line_of(self.shape, self.line) {
            Line::OfHead(_) => true,
            Line::OfNode(_) => false,
        }
    }
}

impl fmt::Display for Held {
    fn fmt<W: fmt::Write>(&self, f: &mut fmt::Formatter<W>) -> fmt::Result {
        let c = self.content;
        let index = c.index;
        if self.is_head() {
            return write!(f, "index {index}");
        }
        let not = if c.linked == 0 { "not " } else { "" };
        write!(f, "{not}linked, index {index}, item {}", c.item)
    }
}

// The content as three fields of a row.
#[derive(Clone, Copy, Debug)]
pub struct Fields(pub Held);

impl fmt::Display for Fields {
    fn fmt<W: fmt::Write>(&self, f: &mut fmt::Formatter<W>) -> fmt::Result {
        let c = self.0.content;
        if self.0.is_head() {
            return write!(f, "-\t{}\t-", c.index);
        }
        write!(f, "{}\t{}\t{}", c.linked, c.index, c.item)
    }
}

// The letter of a place in a line's list: a to p, + for those behind.
pub fn letter(j: usize) -> char {
    if j < 16 {
        (b'a' + j as u8) as char
    } else {
        '+'
    }
}
