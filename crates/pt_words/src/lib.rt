//! The words of a command line: COMMAND FIRST [SECOND] [--steps N] [--events] [--stats].
#![tactic(auto)]

mod line;
mod reader;
mod uses;

pub use line::{Command, CommandLine, WordsErr};
pub use reader::parse;
