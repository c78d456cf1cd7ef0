//! That in a run of code each activation has the names of its block, and each function a cell for
//! each free name of its block (Language Reference 4.2.2, 8.7).
#![tactic(auto)]

mod laws;

pub use laws::{runs_begin_with_their_names, runs_have_their_names};
