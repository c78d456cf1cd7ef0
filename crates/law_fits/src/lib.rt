//! That a run of code is never stuck where its blocks fit. Definitions and a law, without code.
#![tactic(auto)]

mod laws;

pub use laws::code_that_fits_runs_on;
