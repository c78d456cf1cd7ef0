//! The activations that wait for newer ones, with what they are open for (Language Reference 4.1).
#![tactic(auto)]

mod openers;
mod waits;

pub use openers::Openers;
pub use waits::Waits;
