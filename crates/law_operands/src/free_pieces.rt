//! That the code of each block of a script has as many free names as the block. A law, without
//! code.

mod laws;

pub use laws::blocks_of_a_script_have_their_free_names;
