//! The test for a broken state and the setup, by the parts of the state.
#![tactic(auto)]

mod broken;
mod flight;
pub mod fresh;
mod held;
mod queues;
mod views;

pub use broken::is_broken;
