// A schedule's run with the rows of its lines' contents, laid out as the table that endings are picked from.

#![tactic(auto)]

pub mod following;
pub mod over;
pub mod paging;
pub mod rows;
pub mod running;
pub mod tables;
