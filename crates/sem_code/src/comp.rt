//! The code of statements and of blocks: where it stands, and that it follows control.

mod laws;

pub use laws::{every_statement_has_code, the_code_of_a_block_follows_it};
