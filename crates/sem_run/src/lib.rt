//! A run, said once, over any machine and any values; and what comes of a turn whose ask is answered.
#![tactic(auto)]

pub mod run;
pub mod transitions;
