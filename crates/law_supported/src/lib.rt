//! That the code of each block of a supported script has the names that the block is said to have,
//! and that those in cells are different, as its free ones are. Laws, without code.
#![tactic(auto)]

mod laws;

pub use laws::{
    blocks_of_a_supported_script_have_their_names, names_in_cells_of_a_supported_script_differ,
};
