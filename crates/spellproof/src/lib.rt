// No code: the words of a schedule, read, are the schedule; distinct words have distinct keys. The statements and their proofs are in proofs/.

#![tactic(auto)]
