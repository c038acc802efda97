// The laws of the drain: theorems over its definition, and no code.

#![tactic(auto)]
