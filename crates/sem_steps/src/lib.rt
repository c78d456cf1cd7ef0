//! Several steps of a run at once, and who is asked next at an event that is told. Definitions and
//! laws, without code.
#![tactic(auto)]

mod laws;

pub use laws::{events_are_told_in_order, steps_are_moves_of_a_run};
