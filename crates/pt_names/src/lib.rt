//! Names with their values, each at a place that it keeps.
#![tactic(auto)]

mod hints;
mod laws;
mod names;

pub use laws::a_place_stands_for_its_name;
pub use names::Names;
