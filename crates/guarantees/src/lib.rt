// The guarantees of delivery (docs/GUARANTEES.md, Delivery) as theorems: specs/ states them, proofs/ proves them.

#![tactic(auto)]
