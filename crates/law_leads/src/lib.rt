//! Where asks lead a run, by the successors that instructions tell, and what is told there.
//! Definitions and a law, without code.
#![tactic(auto)]

mod laws;

pub use laws::asks_lead_and_tell_what_ended_iterators;
