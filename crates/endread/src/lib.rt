// No code: the bytes of an ending, read, are that ending. The proofs are in proofs/.

#![tactic(auto)]
