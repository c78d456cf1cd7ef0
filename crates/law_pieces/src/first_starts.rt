//! The first start on a line in a piece of code, and that it is the least of its block.

mod laws;

pub use laws::the_first_start_on_a_line_is_the_least;
