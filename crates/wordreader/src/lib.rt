// The words of a schedule read: the words of a line, what it says, what the lines say together, and the bytes that they put.

#![tactic(auto)]

pub mod layout;
pub mod putting;
pub mod reading;
pub mod saying;
pub mod surveying;
pub mod words;

pub use putting::put_blank;
pub use reading::put_text;
pub use surveying::{Surveyed, survey_of};
