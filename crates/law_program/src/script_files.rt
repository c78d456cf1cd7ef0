//! That the code of a supported script, read from its file, is supported and run as the script.
//! Definitions and laws, without code.

mod laws;

pub use laws::{
    code_of_a_script_is_supported, code_of_a_script_runs_as_the_script, the_script_runs_as_its_code,
};
