// What the steps of both operations share: a thread answers, a node is retired, a line is written back, flushed, fenced.

#![tactic(auto)]

pub mod flushing;
pub mod leaving;
pub mod persisting;
pub mod retiring;
