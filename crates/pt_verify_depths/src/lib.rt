//! Which code fits: what a verifier of code files computes.
#![tactic(auto)]

mod laws;
mod places;

pub use laws::{
    a_code_object_runs_its_block, a_table_tells_of_its_block, blocks_that_are_read_are_seen,
    sizes_are_lengths, sizes_decide, sizes_tell_refusals,
};
pub use places::{captured, count, sizes, sizes_up_to, target_of};
pub use pt_sizes::Sizes;
