//! The law of what bare runs write to the log. Definitions and laws, without code.
#![tactic(auto)]

mod laws;

pub use laws::a_bare_run_logs_its_events;
