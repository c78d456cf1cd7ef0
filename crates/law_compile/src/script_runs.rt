//! That the code of a script has the bare runs of the script. Definitions and laws, without code.

mod laws;

pub use laws::{
    the_code_of_a_program_has_its_bare_runs, the_code_of_a_script_has_its_bare_runs,
    the_code_of_a_script_is_never_stuck, the_code_of_a_script_runs_as_the_script,
};
