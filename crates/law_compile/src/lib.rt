//! Laws of the code of a script: that it runs as the script does, has its objects and forms, and fits.
#![tactic(auto)]

pub mod fitting_scripts;
pub mod formed;
pub mod formed_scripts;
pub mod loop_exits;
pub mod read_forms;
pub mod read_runs;
pub mod script_depths;
pub mod script_objects;
pub mod script_runs;
