// The static library: the public calls on bytes, under C's names. include/uq.h declares them and says how the returned number is taken apart.
// Each call is that of the crate `library`, with its clauses.

#![tactic(auto)]

pub mod conversions;
pub mod despatch;
pub mod histories;
pub mod line;
pub mod mend;
pub mod plain;
pub mod probes;
pub mod records;
pub mod schedules;
pub mod texts;
