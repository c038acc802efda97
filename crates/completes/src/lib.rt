// The laws of the first PReP's store: definitions and proofs, and one function whose promise is all of them.

#![tactic(auto)]

ghost use Rattle.completes.specs.Promises.{Promises};

/// The laws of completion.
#[tactic(auto, using(crate::proofs::Promises::promises))]
pub fn laws()
    ensures { Promises }
{}
