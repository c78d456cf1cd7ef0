//! Laws of the definitions of reports, each the contract of a function that does nothing.
#![tactic(auto)]

mod laws;

pub use laws::{own_lines_add_up, profiles_add_up};
