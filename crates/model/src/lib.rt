// No code: the abstract machine of UnlinkedQ in specs/, and what is proved of it in proofs/.

#![tactic(auto)]
