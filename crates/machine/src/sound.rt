//! A machine that isn't broken: the test is made once, and its steps need none.
ghost use Rattle.std.specs.Prelude.{◌≡◌, ◌≤◌, ◌↔◌, true, false, length, IfErr, IfOk, IfSome, IsNone};
ghost use Rattle.std.proofs.lemmas.List.Edits.{sets};
ghost use Rattle.protocol.specs.Broken.{broken_of};
ghost use Rattle.protocol.specs.Refusal.{number, told};
ghost use Rattle.protocol.specs.Setup.{fresh_with, legal};
ghost use Rattle.protocol.specs.Step.{step_of};
ghost use Rattle.protocol.specs.Steps.{answers, ran};

use protocol::refusal::{Refusal, answer_number};
use protocol::{Setup, State, Step};
use rules::apply;

/// A machine that isn't broken.
#[derive(Clone, Copy)]
pub struct Sound {
    pub state: State,
    ghost unbroken: { broken_of state ≡ false },
}

/// A machine after a step, and whether it was taken.
#[derive(Clone, Copy)]
pub struct Stepped {
    pub machine: Sound,
    pub answer: Result<(), Refusal>,
}

impl Sound {
    /// None where the machine is broken.
    pub fn new(state: State) -> Option<Sound>
        ensures some { IfSome result (λ s. s.state ≡ state) }
        ensures none { IsNone result ↔ (broken_of state ≡ true) }
    {
        if broken::is_broken(&state) {
            return None;
        }
        Some(Sound { state })
    }

    /// The fresh machine of a legal setup.
    #[tactic(auto, using(unbroken::proofs::Laws::Fresh::fresh_unbroken))]
    pub fn setup(u: Setup) -> Result<Sound, Refusal>
        ensures ok { IfOk result (λ m. (legal u.stores u.actors u.homes u.lists ≡ true) × (m.state ≡ fresh_with u.stores u.actors u.homes u.lists)) }
        ensures err { IfErr result (λ e. (number e ≡ 11) × (legal u.stores u.actors u.homes u.lists ≡ false)) }
    {
        if !broken::fresh::legal(&u) {
            return Err(Refusal::IllegalSetup);
        }
        let state = broken::fresh::fresh(&u);
        Ok(Sound { state })
    }

    /// One step, on the machine where it stands.
    #[tactic(auto, using(unbroken::proofs::Laws::Room::bounds))]
    pub fn take(&mut self, step: Step) -> Result<(), Refusal>
        ensures { told result self.new.state ≡ step_of self.old.state step }
    {
        apply(&mut self.state, step)
    }

    /// One step, by value. A refused one gives back the machine unchanged.
    pub fn step(self, step: Step) -> Stepped
        ensures { told result.answer result.machine.state ≡ step_of self.state step }
    {
        let mut machine = self;
        let answer = machine.take(step);
        Stepped { machine, answer }
    }

    /// Steps one after another. A refused one doesn't stop them. Their numbers go where they are lent to.
    pub fn take_all(&mut self, steps: &[Step], numbers: &mut [u8])
        requires { length steps.now ≤ length numbers.old }
        ensures state { self.new.state ≡ ran self.old.state steps.now }
        ensures numbers { numbers.new ≡ sets numbers.old 0 (answers self.old.state steps.now) }
    {
        for i in 0..steps.len() {
            numbers[i] = answer_number(self.take(steps[i]));
        }
    }
}
