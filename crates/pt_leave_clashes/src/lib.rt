//! Whether a Leave leaves other kinds of slots than its target has.
#![tactic(auto)]

mod clashes;
mod laws;

pub use clashes::leaves_clash;
pub use laws::leaves_clash_at_their_places;
