//! The acts of a script's code lie in their parts.

mod laws;

pub use laws::the_acts_of_a_script_lie_in_their_parts;
