//! That the blocks of a script are numbered in their order. A law, without code.

mod laws;

pub use laws::the_blocks_of_a_script_are_numbered;
