//! The code of expressions in pieces.

mod laws;

pub use laws::the_piece_of_an_expression_is_its_code;
