// The table of contents as the page keeps it, and the endings picked from it.

#![tactic(auto)]

pub mod ending;
pub mod opened;
pub mod row;
pub mod since;
pub mod turn;
