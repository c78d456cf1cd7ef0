//! Why a block of code is refused, of what is told of it.
#![tactic(auto)]

mod behind;
mod failures;
mod halving;
mod laws;
mod place;

pub use behind::refusal_behind;
pub use failures::{Failures, KindFailures, LeaveFailures, Refusal};
pub use halving::{Probe, first_refusal, refusal_up_to};
pub use laws::{
    a_block_that_agrees_is_told, a_place_is_told, agreement_falls_short_for_good,
    disagreeing_sizes_are_failures, the_first_place_refuses,
};
pub use place::refusal_at;
