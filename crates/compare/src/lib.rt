// What the comparing programs share: their input and output, and contents read from bytes. No promise of the bench rests on it.

#![tactic(auto)]

pub mod contents;
pub mod items;
pub mod output;
pub mod sums;
