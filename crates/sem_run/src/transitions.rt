//! What comes of a turn of a machine where its ask is answered, over any machine and host.

mod laws;

pub use laws::a_run_does_transitions;
