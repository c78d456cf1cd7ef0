//! Code on slots as a machine of a run, and that it has the runs of its script.

mod laws;

pub use laws::{code_begins_as_its_script, code_of_a_script_never_halts, code_runs_as_its_script};
