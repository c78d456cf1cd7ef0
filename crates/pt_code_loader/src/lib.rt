//! Makes a code ready to run: its tables, and the machine where a run begins.
#![tactic(auto)]

mod blocks;
mod constants;
mod depths;
mod loading;
mod names;
mod starting;

pub use loading::{Loaded, load};
pub use starting::start;
