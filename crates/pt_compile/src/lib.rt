//! Writes the code of scripts: their blocks, one after the other.
#![tactic(auto)]

mod compiler;
mod heading;
mod names;
mod numbers;
mod open_block;

pub use compiler::compile;
