//! Laws of jumps in code: where they lead by what is known of slots, and that so the run of code that
//! fits never halts.
#![tactic(auto)]

pub mod bare_runs;
pub mod jump_answers;
pub mod told_code;
