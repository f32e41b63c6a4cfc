// The public calls on bytes, by the names that C knows. The crate library_c exports them; include/uq.h declares them and says how the returned number is taken apart.
// Each call takes numbers and lent bytes only, returns one number, and has no `requires`.

#![tactic(auto)]

pub mod conversions;
pub mod despatch;
pub mod histories;
pub mod line;
pub mod mend;
pub mod plain;
pub mod probes;
pub mod records;
pub mod schedules;
pub mod texts;
