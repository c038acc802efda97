//! The drain: takes steps one after another until none applies.
#![tactic(auto)]

ghost use Rattle.std.specs.Prelude.{◌≡◌, ◌*◌};
ghost use Rattle.protocol.specs.Drain.{course, drain_of, drained};
ghost use Rattle.drain.specs.Drained.{OneDrain, told_drained};

mod turns;

use machine::sound::{Sound, Stepped};
use protocol::State;
use protocol::refusal::Refusal;

/// The machine after a drain, and how many steps it took.
#[derive(Clone, Copy)]
pub struct Drained {
    pub state: State,
    pub taken: Result<u16, Refusal>,
}

/// Takes steps until none applies. Refused for a broken value, then if any store is down.
#[tactic(auto, unfolding(protocol::specs::Drain::drain_of))]
pub fn drain(m: State) -> Drained
    ensures { told_drained result ≡ drain_of m }
{
    let Some(machine) = Sound::new(m) else {
        return Drained {
            state: m,
            taken: Err(Refusal::BrokenMachine),
        };
    };
    if !turns::all_up(&m) {
        return Drained {
            state: m,
            taken: Err(Refusal::StoreDown),
        };
    }
    take_turns(machine)
}

/// Turns, one after another, at most 22 for each interaction.
fn take_turns(from: Sound) -> Drained
    ensures { told_drained result ≡ drained (course (from.state.made * 22) from.state) }
{
    let limit = u16::from(from.state.made) * 22;
    let mut answered = Stepped {
        machine: from,
        answer: Ok(()),
    };
    for count in 0..limit {
        let Some(step) = turns::turn(&answered.machine.state) else {
            return Drained {
                state: answered.machine.state,
                taken: Ok(count),
            };
        };
        answered = answered.machine.step(step);
    }
    Drained {
        state: answered.machine.state,
        taken: Ok(limit),
    }
}

/// What is told of a drain leaves nothing out.
#[tactic(auto, using(crate::proofs::Told::one_drain))]
pub fn laws()
    ensures { OneDrain }
{}
