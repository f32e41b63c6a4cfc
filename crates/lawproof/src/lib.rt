// No code: every ending of an accepted schedule recovers, and to a lawful queue. The proofs are in proofs/.

#![tactic(auto)]
