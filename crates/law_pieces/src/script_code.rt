//! The code of a script, whatever values it runs over.

mod laws;

pub use laws::the_code_of_a_script_is_its_code;
