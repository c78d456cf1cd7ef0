//! That the tables made of a script's code are those of the script. Definitions and laws, without
//! code.

mod laws;

pub use laws::{a_code_has_its_module, a_loaded_script_has_its_tables, constants_have_their_texts};
