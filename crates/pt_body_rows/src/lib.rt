//! What instructions do with names of the bodies of the module and of classes (Language Reference
//! 4.2.2, 7.2, 7.5).
#![tactic(auto)]

mod bodies;
mod own;

pub use bodies::{delete_name, name, set_name};
pub use pt_name_rows::{
    cell, constant, copy, copy_two, delete_cell, delete_global, delete_local, fresh_cell,
    fresh_local, global, jump, leave, local, nop, pop, push_cell, return_value, rotate_three,
    set_cell, set_global, set_local, swap,
};
