//! Where a jump of a debugger leads in code.
#![tactic(auto)]

mod landing;
mod slots;

pub use landing::{JumpErr, Land, target};
pub use slots::PlaceSlots;
