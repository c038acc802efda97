// The promise of this function is every statement of the three demands, so that the check fails where one has no proof.

#![tactic(auto)]

ghost use Rattle.demands.specs.Demands.{Demands};

#[tactic(auto, using(crate::proofs::Demanded::demanded))]
fn demands()
    ensures { Demands }
{}
