//! Which forms of the language are supported, and the first node of a script that isn't.
#![tactic(auto)]

mod expressions;
mod laws;
mod names;
mod statements;

pub use laws::blocks_of_supported_scripts_give_nothing_on;
pub use statements::first_unbuilt;
