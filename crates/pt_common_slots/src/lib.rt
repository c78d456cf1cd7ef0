//! Which slots are the same at two places of a block.
#![tactic(auto)]

mod common;
mod laws;
mod own;

pub use common::{common_slots, in_common};
pub use laws::{
    slots_are_shared_by_steps, slots_in_common_have_one_number, what_slots_hold_is_found_by_steps,
};
pub use pt_joins::Joins;
