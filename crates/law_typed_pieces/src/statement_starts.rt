//! Each line on which a statement starts is in the table of starts of its block.

mod laws;

pub use laws::each_line_of_a_statement_has_a_start;
