//! What steps come to where nothing hooks in: what is told writes lines of the log alone. Definitions
//! and laws, without code.
#![tactic(auto)]

mod laws;

pub use laws::{quiet_steps_write_lines_of_the_log, quiet_turns_lead_on};
