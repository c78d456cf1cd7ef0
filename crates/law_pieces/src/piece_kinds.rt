//! The slots at each place of the code of pieces, found in one walk over them.

mod laws;

pub use laws::{
    slots_in_common_are_of_one_origin, the_walk_over_a_piece_gives_a_table,
    the_walk_over_a_piece_is_right,
};
