//! Where asks lead a run, by the successors that instructions tell. Definitions and laws, without
//! code.

mod laws;

pub use laws::asks_lead_to_their_successors;
