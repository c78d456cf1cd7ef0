//! That no line end parts the name of a block of a script. Definitions and laws, without code.
#![tactic(auto)]

mod laws;

pub use laws::no_line_end_parts_the_name_of_a_block;
