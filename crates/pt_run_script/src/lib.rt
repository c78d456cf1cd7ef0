//! The run of a script: its code, the tables and the machine made of it, and their run.
#![tactic(auto)]

mod run;

pub use pt_run_code::{Ended, RunEnd, Totals, run_code};
pub use run::run_script;
