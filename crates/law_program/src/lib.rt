//! Laws of the program: bare runs are runs, a code file has one outcome, `exec` answers as `run`,
//! and the lines of a profile add up.
#![tactic(auto)]

pub mod code_ends;
pub mod exec_answers;
pub mod program_runs;
pub mod reports;
pub mod script_files;
