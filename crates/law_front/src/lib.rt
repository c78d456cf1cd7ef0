//! Laws of what is read: the lines and names of tokens, the lines of statements, and how blocks are
//! numbered in what the parser gives.
#![tactic(auto)]

pub mod identifiers;
pub mod parsed;
pub mod parsed_scripts;
pub mod script_numbers;
pub mod statement_lines;
pub mod token_lines;
