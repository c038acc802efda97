// That the guarantees of delivery are neither empty nor blind: specs/ has the runs and the wrong rules, proofs/ computes them.

#![tactic(auto)]
