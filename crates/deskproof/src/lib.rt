// No code: what the two calls on words give together, from their contracts as the source has them. The statements and their proofs are in proofs/.

#![tactic(auto)]
