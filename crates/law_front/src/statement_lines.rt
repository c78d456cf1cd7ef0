//! The statements of a text start on lines in their order. A law, without code.

mod laws;

pub use laws::statements_start_in_order;
