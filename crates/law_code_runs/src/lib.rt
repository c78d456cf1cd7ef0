//! Laws of runs of code: that code which has its objects follows its script.
#![tactic(auto)]

pub mod code_follows;
pub mod code_run;
