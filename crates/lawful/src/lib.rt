// What demand 3 says, as types: specs/Demand3.antt. No code.

#![tactic(auto)]
