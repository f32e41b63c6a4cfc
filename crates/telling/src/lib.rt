// A run told in words or as rows: lines and their contents, starts, refusals. Events are told by crate deeds, the stop by crate stops.

#![tactic(auto)]

pub mod book;
pub mod fences;
pub mod lines;
pub mod refusals;
pub mod shapes;
pub mod starts;
pub mod text;

use book::Book;

// A run as it is told: to whom, as rows or in words, and what is known of each line's contents.
#[derive(Drop)]
pub struct Telling<W> {
    pub out: W,
    pub columns: bool,
    pub book: Book,
}
