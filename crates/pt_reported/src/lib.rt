//! The lines and the names of a script that a report is on: those of its acts, also of acts that
//! never run, and those of its blocks (Language Reference 4.1).
#![tactic(auto)]

mod collecting;

pub use collecting::{Reported, lines_and_names};
