// The laws of the pair rule: specs/ states them, proofs/ proves them.

#![tactic(auto)]

ghost use Rattle.pairs.specs.Pairs.{ThePairRule};

/// The laws of the pair rule.
#[tactic(auto, using(crate::proofs::Pairs::the_pair_rule))]
pub fn laws()
    ensures { ThePairRule }
{}
