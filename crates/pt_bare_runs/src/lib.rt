//! Runs that nothing hooks into, stride by stride, over any machine and host.
#![tactic(auto)]

mod laws;

pub use laws::{a_bare_run_has_one_outcome, a_bare_run_is_a_run, a_bare_run_is_never_stuck};
