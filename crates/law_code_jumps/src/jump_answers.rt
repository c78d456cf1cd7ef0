//! The answers to jumps by what is known of slots. Definitions and laws, without code.

mod laws;

pub use laws::{jumps_are_answered_by_slots, jumps_have_one_answer};
