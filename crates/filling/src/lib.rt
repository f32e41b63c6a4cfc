// The printed page's lines, as many as fit, into a lent buffer; and the line of a refusal.

#![tactic(auto)]

pub mod calls;
pub mod table;

pub use calls::{page_lines, refusal_line};
pub use table::{fill, fill_told};
