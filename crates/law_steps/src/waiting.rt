//! What is seen of the open activations of a run, and what that tells of the run. Definitions and a
//! law, without code.

mod laws;

pub use laws::what_waits_is_seen;
