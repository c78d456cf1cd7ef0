//! That where nothing hooks in, what is told is logged, and the run comes to what waits. Definitions
//! and a law, without code.
#![tactic(auto)]

mod laws;

pub use laws::what_is_told_where_nothing_hooks_in_is_logged;
