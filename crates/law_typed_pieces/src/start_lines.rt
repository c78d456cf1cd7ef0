//! The lines of the starts of a block.

mod laws;

pub use laws::statements_start_on_the_lines_of_starts;
