//! What debuggers ask of the slots at the places of a block that fits.
#![tactic(auto)]

mod kinds;
mod laws;
mod lists;
mod tables;

pub use kinds::{KindsAt, TopRun};
pub use laws::{numbers_tell_slots_in_common, tables_answer_jumps};
pub use tables::{BlockSlots, block_slots};
