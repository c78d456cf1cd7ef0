//! The code of expressions: where it stands, and that it follows control.

mod laws;

pub use laws::{every_form_has_code, the_code_of_an_expression_follows_it};
