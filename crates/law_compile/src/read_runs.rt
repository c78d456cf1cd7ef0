//! That a script that is read runs as its code. Definitions and a law, without code.

mod laws;

pub use laws::a_script_that_is_read_runs_as_its_code;
