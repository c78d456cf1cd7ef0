//! Whether the tables of a block are in order, as far as places alone decide; the number of a row.
#![tactic(auto)]

mod rows;

pub use rows::{first_bad_row, row_number};
