//! The closed parts in the code of a script.

mod laws;

pub use laws::the_statements_of_a_script_lie_in_their_parts;
