//! Which command of a debugger a line is (Library Reference, "pdb").
#![tactic(auto)]

mod command;
mod laws;
mod numbers;
mod parts;
mod reader;
mod verb;

pub use command::Command;
pub use laws::commands_are_words;
