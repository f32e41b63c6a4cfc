// No code: the simulation of the record by the abstract machine, in specs/ and proofs/.

#![tactic(auto)]
