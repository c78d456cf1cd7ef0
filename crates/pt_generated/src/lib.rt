//! The script that is made of a number, and a log that counts the lines that a run begins.
#![tactic(auto)]

mod line_log;
mod script;

pub use line_log::LineLog;
pub use script::script_of;
