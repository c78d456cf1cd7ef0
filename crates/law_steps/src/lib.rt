//! Laws of steps of a run: where asks lead, what results do to what waits for them, what is seen of
//! the activations that wait, and how steps and advice are the run of a session.
#![tactic(auto)]

pub mod leads;
pub mod returns;
pub mod sessions;
pub mod waiting;
