// No code: what a page that the calls hand out is worth. The statement is in specs/, its proof in proofs/.

#![tactic(auto)]
