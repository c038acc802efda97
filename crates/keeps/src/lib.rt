// The laws of the rules: definitions and proofs only, no function.

#![tactic(auto)]
