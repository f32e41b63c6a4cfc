// The machine record: plain numbers, by value. docs/DECISIONS.md lists every field with its range.

#![tactic(auto)]

use answer::{Answer, Refusal};
use image::{Content, Image, Shape, no_contents, no_heads};

pub mod blank;
pub mod lines;
mod outcomes;
pub mod queue;
pub mod start;

ghost use Rattle.std.specs.Prelude.{◌≡◌};
ghost use Rattle.answer.specs.Answers.{given};
ghost use Rattle.machine.specs.Line.{shape_of};
ghost use Rattle.machine.specs.Record.{content_of, idle_thread};
ghost use Rattle.machine.specs.Start.{fresh_from};

pub use start::start_from;

// A node's cached copy, its link (NONE where it has none), and the threads it waits for, as a set.
#[derive(Clone, Copy, Debug, PartialEq, Eq)]
pub struct Node {
    pub index: u64,
    pub item: u32,
    pub next: u8,
    pub linked: u8,
    pub waits: u8,
}

// A thread: its next step (0: no operation, 1 to 12: A1 to A12, 13 to 19: D1 to D7, 20 and 21: S3 and S6 of "UQP",
// 22 to 24: F10, F3 and F6, the fences behind A10, D3 and D6) and what it has read.
// A node number of 255 is none (Machine::NONE).
#[derive(Clone, Copy, Debug, PartialEq, Eq)]
pub struct Thread {
    pub index: u64,
    pub item: u32,
    pub step: u8,
    pub node: u8,
    pub tail: u8,
    pub head: u8,
    pub next: u8,
    pub held: u8,
}

impl Thread {
    // Without an operation, holding this node.
    pub fn idle(held: u8) -> Thread
        ensures { result ≡ idle_thread held }
    {
        Thread {
            step: 0,
            node: Machine::NONE,
            tail: Machine::NONE,
            head: Machine::NONE,
            index: 0,
            next: Machine::NONE,
            item: 0,
            held,
        }
    }
}

// The form of its image; N and T; Head, a node number with an index, which is that of head line 0 (in "UQP" a node number alone, and each thread has a head line);
// Tail; the free set as a word; cached and persisted copies, those of the head lines apart; the threads; the node last handed out. Of flushes: what each thread has
// flushed, and sets of threads: those that have flushed since a thread last did, and, over a head line and over a node, those whose flush of it is no later than what
// is persisted there. Head lines behind those that there are, nodes at n and beyond and threads at t and beyond are not part of it.
#[derive(Clone, Copy, Debug, PartialEq, Eq)]
pub struct Machine {
    pub free: u64,
    pub heads: [u64; 8],
    pub kept_heads: [u64; 8],
    pub nodes: [Node; 64],
    pub kept: [Content; 64],
    pub threads: [Thread; 8],
    pub flushed: [Content; 8],
    pub late: [u8; 8],
    pub over_heads: [u8; 8],
    pub over: [u8; 64],
    pub form: u8,
    pub n: u8,
    pub t: u8,
    pub head: u8,
    pub tail: u8,
    pub last: u8,
}

impl Machine {
    pub const NODES: usize = 64;

    pub const THREADS: usize = 8;

    // What stands for no node. A number and no Option: the record's bytes hold it.
    pub const NONE: u8 = 255;

    // At most eight head lines, and a line for each node.
    pub const HEADS: usize = 8;

    pub const LINES: usize = Machine::HEADS + Machine::NODES;

    // The steps, numbers and no enum: the record's bytes hold any byte, and on_event answers 18 to one that is no step. 0 is no operation, A1 to A12 of an enqueue, D1 to D7 of a dequeue, S3 and S6 the stores before D3 and D6, F10, F3 and F6 the fences
    // behind A10, D3 and D6.
    pub const A1: u8 = 1;

    pub const A2: u8 = 2;

    pub const A3: u8 = 3;

    pub const A4: u8 = 4;

    pub const A5: u8 = 5;

    pub const A6: u8 = 6;

    pub const A7: u8 = 7;

    pub const A8: u8 = 8;

    pub const A9: u8 = 9;

    pub const A10: u8 = 10;

    pub const A11: u8 = 11;

    pub const A12: u8 = 12;

    pub const D1: u8 = 13;

    pub const D2: u8 = 14;

    pub const D3: u8 = 15;

    pub const D4: u8 = 16;

    pub const D5: u8 = 17;

    pub const D6: u8 = 18;

    pub const D7: u8 = 19;

    pub const S3: u8 = 20;

    pub const S6: u8 = 21;

    pub const F10: u8 = 22;

    pub const F3: u8 = 23;

    pub const F6: u8 = 24;

    // At most so many contents of a line, endings, and events of a schedule.
    pub const CONTENTS: usize = 16;

    pub const ENDINGS: u32 = 65536;

    pub const EVENTS: u16 = 4096;

    // The fresh machine of N nodes and T threads: the start of the all-zero image. Public: every input is answered.
    pub fn fresh(n: u8, t: u8) -> Result<Machine, Refusal>
        ensures { result ≡ given (fresh_from n t).answer (fresh_from n t).machine }
    {
        let heads = no_heads();
        let nodes = no_contents();
        let g = Image {
            heads,
            nodes,
            form: 1,
            n,
            t: 0,
        };
        start_from(g, t)
    }

    // What fixes its lines, and the layout of its image.
    pub fn shape(&self) -> Shape
        ensures { result ≡ shape_of self.now }
    {
        Shape {
            form: self.form,
            n: self.n,
            t: self.t,
        }
    }
}

// What the node's line holds: the link and the threads it waits for are no part of it.
impl From<Node> for Content {
    ghost from_gives = { λ v c. c ≡ content_of v };

    fn from(v: Node) -> Content {
        Content {
            index: v.index,
            item: v.item,
            linked: v.linked,
        }
    }
}

// An event of a schedule: its six bytes.
#[derive(Clone, Copy, Debug, PartialEq, Eq)]
pub struct Event {
    pub kind: u8,
    pub number: u8,
    pub item: u32,
}

// What an event answers, with the machine after it: a refused one hands it back as it was.
#[derive(Clone, Copy, Debug, PartialEq, Eq)]
pub struct Out {
    pub answer: Answer,
    pub machine: Machine,
}

// A line of memory: a head line, or a node's.
#[derive(Clone, Copy, Debug, PartialEq, Eq)]
pub enum Line {
    OfHead(u8),
    OfNode(u8),
}

// What an event does to the lines' contents: nothing, a store to one line, the persist of one line at once; or a thread's flush of one line, or its fence.
#[derive(Clone, Copy, Debug, PartialEq, Eq)]
pub enum Touch {
    Nothing,
    Store(Line),
    Persist(Line),
    Flush(u8, Line),
    Fence(u8, Line),
}

// What a step or an event answers, with the machine after it and the line that it touched.
#[derive(Clone, Copy, Debug, PartialEq, Eq)]
pub struct Acted {
    pub answer: Answer,
    pub machine: Machine,
    pub touch: Touch,
}

// How many nodes are in each of the six places.
#[derive(Clone, Copy, Debug, PartialEq, Eq)]
pub struct Places {
    pub queue: u8,
    pub free: u8,
    pub waiting: u8,
    pub held: u8,
    pub enqueue: u8,
    pub dequeue: u8,
}
