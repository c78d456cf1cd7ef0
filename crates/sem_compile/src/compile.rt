//! The code of a script.

mod laws;

pub use laws::{a_code_has_as_many_blocks, the_blocks_of_a_script_are_laid_out};
