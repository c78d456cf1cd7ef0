//! That the lines of each name of a profile add up to its total. Definitions and laws, without code.

mod laws;

pub use laws::own_lines_of_a_profile_add_up;
