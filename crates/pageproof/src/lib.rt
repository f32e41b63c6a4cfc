// No code: the proof that a page holds the images a crash can leave, in proofs/.

#![tactic(auto)]
