// The page of endings. Its calls come with their proofs; the definitions are in specs/.

#![tactic(auto)]
