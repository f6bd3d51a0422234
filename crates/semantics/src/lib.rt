// No code: the definitions that every contract cites stand in specs/, with what is
// claimed of them. The worked rows are computed in proofs/; the theorems are the crate theorems.
#![tactic(auto)]
