// The promises of `completes` bite: runs on which their premises hold, and wrong stores by which they fail.

#![tactic(auto)]

ghost use Rattle.completes_bites.specs.Witnesses.{Witnesses};
ghost use Rattle.completes_bites.specs.Wrong.{Wrong};

/// Runs on which they hold, and wrong rules that break them.
#[tactic(auto, using(crate::proofs::Witnesses::witnesses, crate::proofs::Wrong::wrong))]
pub fn laws()
    ensures witnesses { Witnesses }
    ensures wrong { Wrong }
{}
