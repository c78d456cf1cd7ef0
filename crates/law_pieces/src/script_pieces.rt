//! What the code of a script's blocks in pieces asks of the script, from its scopes. Laws, without
//! code.

mod laws;

pub use laws::{blocks_take_cells_along, exits_stand_in_loops};
