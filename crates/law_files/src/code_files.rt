//! That the code of a script has a file: each of its fields is one. Definitions and laws, without code.

mod laws;

pub use laws::{
    a_script_has_a_file, instructions_name_what_there_is, marks_of_a_script_rise,
    parameters_of_a_script_are_locals, texts_of_a_script_are_known, the_module_has_no_free_names,
    the_module_stands_first,
};
