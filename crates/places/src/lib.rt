// Where a refusal was met (02, A4): wherever a place is carried, a slice of the source starts there. Theorems without code: specs/Promise
// says them whole, proofs/Kept proves them.
#![tactic(auto)]
