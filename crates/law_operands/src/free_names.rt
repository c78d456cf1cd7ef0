//! That what a block has from further out is among its free names, and when its code has as many.
//! Definitions and laws, without code.

mod laws;

pub use laws::{
    a_name_from_further_out_is_a_free_name, operands_leave_free_names,
    what_is_looked_up_further_out_is_a_free_name, what_is_taken_along_is_a_free_name,
};
