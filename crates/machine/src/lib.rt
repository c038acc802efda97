//! A machine by value: its setup, the test for a broken one, and its steps. Each method hands back the machine and its answer.
#![tactic(auto)]

ghost use Rattle.std.specs.Prelude.{◌≡◌};
ghost use Rattle.protocol.specs.Broken.{broken_of};
ghost use Rattle.protocol.specs.Refusal.{told};
ghost use Rattle.protocol.specs.Setup.{empty_machine, setup_of};
ghost use Rattle.protocol.specs.Step.{step_of};

pub mod sound;

use protocol::refusal::Refusal;
use protocol::{Setup, State, Step};
use rules::apply;

/// Any machine value, broken or not.
#[derive(Clone, Copy)]
pub struct Machine {
    pub state: State,
}

/// A machine, and whether what was asked of it was taken.
#[derive(Clone, Copy)]
pub struct Answered {
    pub machine: Machine,
    pub answer: Result<(), Refusal>,
}

impl Machine {
    /// No stores, actors or interactions.
    pub fn empty() -> Machine
        ensures { result.state ≡ empty_machine }
    {
        Machine {
            state: broken::fresh::empty(),
        }
    }

    /// The fresh machine of a legal setup; the empty one beside a refusal.
    #[tactic(auto, unfolding(protocol::specs::Setup::setup_of))]
    pub fn setup(u: Setup) -> Answered
        ensures { told result.answer result.machine.state ≡ setup_of u }
    {
        if !broken::fresh::legal(&u) {
            return Answered {
                machine: Machine::empty(),
                answer: Err(Refusal::IllegalSetup),
            };
        }
        let state = broken::fresh::fresh(&u);
        Answered {
            machine: Machine { state },
            answer: Ok(()),
        }
    }

    /// True exactly where a clause says so, for every value.
    pub fn is_broken(&self) -> bool
        ensures { result ≡ broken_of self.now.state }
    {
        broken::is_broken(&self.state)
    }

    /// One step. A refused one gives back the machine unchanged.
    #[tactic(auto, using(unbroken::proofs::Laws::Room::bounds), unfolding(protocol::specs::Step::step_of))]
    pub fn step(self, step: Step) -> Answered
        ensures { told result.answer result.machine.state ≡ step_of self.state step }
    {
        if self.is_broken() {
            return Answered {
                machine: self,
                answer: Err(Refusal::BrokenMachine),
            };
        }
        let mut machine = self;
        let answer = apply(&mut machine.state, step);
        Answered { machine, answer }
    }
}
