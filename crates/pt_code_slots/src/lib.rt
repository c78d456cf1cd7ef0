//! What debuggers ask of the slots of code that fits, by block and place.
#![tactic(auto)]

mod blocks;

pub use blocks::{CodeSlots, code_slots};
