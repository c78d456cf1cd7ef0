//! Laws of scripts and code that are loaded: what a host knows of them, their names and objects.
#![tactic(auto)]

pub mod code_names;
pub mod code_program;
pub mod loaded_scripts;
pub mod script_program;

pub use pt_code_loader::{load, start};
