//! The run of code, stride by stride, and what it writes to out and to the log.
#![tactic(auto)]

mod advance;
mod counting;
mod draining;
mod ending;
mod laws;
mod leaving;
mod naming;
mod runner;

pub use ending::{Ended, RunEnd, Totals};
pub use laws::a_run_of_code_does_one_work;
pub use runner::run;
