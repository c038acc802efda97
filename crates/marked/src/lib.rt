// The twelve marked runs of docs/RUNS.md as one table: specs/Marked.antt states it, proofs/Marked.antt proves it.

#![tactic(auto)]
