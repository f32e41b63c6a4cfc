// Definitions and laws on lists and sets that every other crate cites. No code.

#![tactic(auto)]
