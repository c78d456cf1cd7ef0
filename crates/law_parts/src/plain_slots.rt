//! The slots at the places of the code of expressions.

mod laws;

pub use laws::the_code_of_an_expression_keeps_the_slots_below;
