//! Which code fits: the kinds of slots that each place gets, and laws.

mod laws;

pub use laws::{
    a_block_has_one_answer, a_block_is_laid_in_its_bytes, code_that_fits_is_never_stuck,
    jumps_land_on_slots_of_their_target, refusals_are_told_in_order, samples_fit_or_are_refused,
    slots_have_the_kinds_of_their_place,
};
