// The laws of a value that is not broken: definitions and proofs only, no function.

#![tactic(auto)]
