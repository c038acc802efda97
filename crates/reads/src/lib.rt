// The laws of a book and of its run: definitions and proofs only, no function.

#![tactic(auto)]
