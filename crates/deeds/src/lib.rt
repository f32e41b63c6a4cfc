// An event told, in words or as rows: what the step did, what each line became, what was answered.

#![tactic(auto)]

pub mod steps;
pub mod turns;
