//! How many slots the places of code get, and where these numbers disagree.
#![tactic(auto)]

mod flow;
mod lows;
mod places;
mod waiting;

pub use flow::{Sizes, sizes_of};
pub use places::{Place, SizeStep};
pub use waiting::Waiting;
