//! Files of commands for a debugger.
#![tactic(auto)]

mod command_file;

pub use command_file::command_lines;
