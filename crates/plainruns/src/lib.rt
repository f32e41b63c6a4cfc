// The runs of the plain way (request 108): a schedule taken apart at its last start, and run from there with picks added, whatever an event would be refused by.

#![tactic(auto)]

pub mod planning;
pub mod playing;
pub mod turns;

use machine::Machine;

// The machine at the last start, the number of the first event since, and how many there are.
#[derive(Clone, Copy, Debug, PartialEq, Eq)]
pub struct Plan {
    pub machine: Machine,
    pub at: usize,
    pub since: usize,
}
