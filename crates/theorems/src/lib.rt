// No code: the proofs of the claims in semantics/specs, and the laws they rest on.
#![tactic(auto)]
