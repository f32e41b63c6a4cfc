// No code: what the despatch desk's list holds, about its definitions. The proofs are in proofs/.

#![tactic(auto)]
