//! The slots at each place of the code of a script, and its starts.

mod laws;

pub use laws::{the_blocks_of_a_script_have_tables, the_starts_of_a_script_have_statements};
