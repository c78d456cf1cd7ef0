//! Code that is told of its slots, and the run of code that fits. Definitions and laws, without code.

mod laws;

pub use laws::{
    answers_said_of_slots_are_jumps, code_that_fits_never_halts, told_code_answers_by_slots,
};
