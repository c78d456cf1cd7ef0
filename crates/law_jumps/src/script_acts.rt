//! That a machine of a script's code knows the acts of the script's blocks. Laws, without code.

mod laws;

pub use laws::{
    a_scripts_code_has_its_runs_where_it_has_closed_parts,
    the_machine_of_a_scripts_code_knows_its_acts,
};
