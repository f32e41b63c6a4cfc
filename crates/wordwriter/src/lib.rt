// The words of a schedule written: its lines, its entries, and as many of them as a buffer takes.

#![tactic(auto)]

pub mod entries;
pub mod stretch;
pub mod texts;

pub use stretch::{Reach, put_entries};
