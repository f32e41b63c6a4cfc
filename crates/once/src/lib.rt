// Request 103: how many persisting steps an answered operation has performed: specs/Once.antt. No code.

#![tactic(auto)]
