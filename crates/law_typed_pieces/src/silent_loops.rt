//! That each loop of a block has an act. Laws, without code.

mod laws;

pub use laws::{each_loop_of_a_block_has_an_act, jumps_that_are_held_lead_ahead};
