//! Jumps in the code of blocks: where they land, and that slots tell closed parts apart.

mod laws;

pub use laws::{
    a_jump_lands_where_code_goes_on, closed_parts_tell_slots_apart,
    jumps_on_slots_are_those_on_parts,
};
