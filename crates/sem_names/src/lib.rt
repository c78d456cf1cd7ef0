//! How the blocks of a script name their variables (Language Reference 4.2.2, 6.2.1, 6.2.4).
#![tactic(auto)]

mod block_shape;
mod laws;

pub use block_shape::BlockShape;
pub use laws::{
    cells_in_small_scripts, each_free_name_has_a_cell, names_have_their_scopes, names_in_a_class,
    names_in_small_scripts, names_of_a_class_are_in_its_body, what_is_owned_is_local_or_a_cell,
    what_is_taken_along_is_in_a_cell,
};
