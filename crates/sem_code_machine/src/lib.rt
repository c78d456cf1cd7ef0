//! The machine of code as a machine that runs, and what the instructions of a run do.
#![tactic(auto)]

pub mod code_machine;
pub mod rows;
