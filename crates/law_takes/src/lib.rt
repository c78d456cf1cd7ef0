//! How many slots instructions take as they ask, and that those below are the ones by which their
//! raises land. Definitions and laws, without code.
#![tactic(auto)]

mod laws;

pub use laws::{instructions_take_so_many_slots, raises_land_alike};
