// What a PROV-N text tells of its chain, and how long one can be: definitions and proofs, and one function whose promise is all of it.

#![tactic(auto)]

ghost use Rattle.chains.specs.Chains.{ChainRecovered, WalkRecovered, ValueRecovered, OneChain, Longest, LookedUp, OneDocument};

/// The laws of chains and their documents.
#[tactic(auto, using(crate::proofs::Laws::chain_recovered, crate::proofs::Laws::walk_recovered, crate::proofs::Laws::value_recovered, crate::proofs::Laws::one_chain, crate::proofs::Laws::longest, crate::proofs::Walks::looked_up_holds, crate::proofs::Laws::one_document))]
pub fn chain_laws()
    ensures chain { ChainRecovered }
    ensures walk { WalkRecovered }
    ensures value { ValueRecovered }
    ensures one { OneChain }
    ensures longest { Longest }
    ensures looked { LookedUp }
    ensures document { OneDocument }
{}
