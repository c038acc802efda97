// Runs on which the laws of the pair rule have their premises, and wrong checks on which they fail: specs/ states them, proofs/ computes them.

#![tactic(auto)]

ghost use Rattle.pair_bites.specs.Bites.{PairBites};

/// Runs on which they hold, and wrong rules that break them.
#[tactic(auto, using(crate::proofs::Bites::pair_bites))]
pub fn laws()
    ensures { PairBites }
{}
