//! That the module of a script has no free names. Definitions and laws, without code.

mod laws;

pub use laws::{
    a_module_passes_no_name_on, no_name_of_a_module_is_free, what_a_module_hands_on_is_its_own,
};
