//! The run of a code from anyone that is read and fits: the tables and the machine made of it, and
//! their run.
#![tactic(auto)]

mod running;
mod texts;

pub use pt_runner::{Ended, RunEnd, Totals, run};
pub use running::run_code;
