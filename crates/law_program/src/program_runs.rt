//! That what the program says of bare runs it says of runs. Definitions and laws, without code.

mod laws;

pub use laws::{
    bare_runs_of_code_files_are_runs, bare_runs_of_scripts_are_runs, verified_code_files_never_halt,
};
