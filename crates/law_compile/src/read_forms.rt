//! The script that a text is has the form that the grammar gives it, no name in it is `.class`, and
//! the operands of its code fit in their bytes. Definitions and laws, without code.

mod laws;

pub use laws::{operands_of_texts_fit, scripts_of_texts_are_formed, scripts_of_texts_are_read};
