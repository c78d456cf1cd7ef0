//! Exits of loops in the code of a script lead to where some way comes. Laws, without code.

mod laws;

pub use laws::{exits_of_loops_are_reached, objects_show_what_is_laid_out};
