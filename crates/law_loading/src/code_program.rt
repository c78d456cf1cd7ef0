//! What a host knows of a code, the code objects of its blocks, and that a run of them is ready to
//! begin and never stuck. Definitions and laws, without code.

mod laws;

pub use laws::{
    a_loaded_code_has_its_tables, built_code_is_never_stuck, built_code_names_its_blocks,
};
