// No code: when each verdict of the judge is said. The statement is in specs/, its proof in proofs/.

#![tactic(auto)]
