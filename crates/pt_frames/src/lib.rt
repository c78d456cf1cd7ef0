//! The open activations of a run with their slots, the cells and the names of the module.
#![tactic(auto)]

mod activation;
mod activations;
mod frames;
mod purpose;
mod slot;

pub use activation::{Activation, Place};
pub use frames::{Frames, OpenErr};
pub use purpose::Purpose;
pub use slot::{Slot, Slots};
