// No code: what stands in the bytes of a stored hall (document 01, "The stored hall"). What the walks find in a
// configuration's bytes, what a splice makes of them, and what reading any bytes gives: every function that checks,
// reads or moves a stored hall rests on these theorems.
#![tactic(auto)]
