// What a call answers. The definition `told` in specs/ gives document 01's number, place and values for each case.

#![tactic(auto)]

mod taken;
mod telling;

pub use taken::is_taken;
pub use telling::told_of;

// Why a call is refused: a case for each number, with its place where it has one.
#[derive(Clone, Copy, Debug, PartialEq, Eq)]
pub enum Refusal {
    Length,
    Mark,
    Nodes,
    Threads,
    Events,
    Linked(u32),
    Twin(u32),
    NoDummy,
    Kind(u32),
    Number(u32),
    Busy(u32),
    Idle(u32),
    NotZero(u32),
    Contents(u32),
    Endings,
    NoEnding,
    Room,
    Record,
    Clean(u32),
    Narrow(u32),
}

// What an event that is taken answers: nothing yet, or what its operation gives.
#[derive(Clone, Copy, Debug, PartialEq, Eq)]
pub enum Reply {
    Taken,
    Done,
    Full,
    WornOut,
    Item(u32),
    Empty,
}

// An answer: a reply, or a refusal.
pub type Answer = Result<Reply, Refusal>;

// Number and place as document 01's table has them; the operation's answer, and the item where it has one.
#[derive(Clone, Copy, Debug, PartialEq, Eq)]
pub struct Told {
    pub number: u8,
    pub place: u32,
    pub reply: u8,
    pub item: u32,
}
