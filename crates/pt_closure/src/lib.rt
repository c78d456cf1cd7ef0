//! The least set of pairs that has some pairs and all that follows from each.
#![tactic(auto)]

mod closing;
mod follows;
mod found;

pub use closing::closure;
pub use follows::Follows;
