//! The names of a script, made from the script.
#![tactic(auto)]

mod laws;
mod names;

pub use laws::a_block_has_the_names_with_its_parameters;
pub use names::script_names;
