// From a schedule's run, the page: the count of endings, each ending, and the contents of one line.

#![tactic(auto)]

pub mod calls;
pub mod lines;

pub use calls::{count_endings, ending_of};
pub use lines::line_contents;
