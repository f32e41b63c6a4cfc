// Request 106: what the rotation is for: specs/Turns.antt. No code.

#![tactic(auto)]
