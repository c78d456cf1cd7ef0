//! Generators, each with the activation that it goes on with.
#![tactic(auto)]

mod generator;
mod gens;
mod laws;

pub use generator::{GenErr, GenState, Generator, How};
pub use gens::Gens;
pub use laws::suspended_goes_on;
