//! The scopes of the names of a script (Language Reference 4.2).
#![tactic(auto)]

mod expressions;
mod gatherer;
pub mod laws;
mod name_set;
mod names;
mod refusals;
mod region;
mod scope;
mod scopes;
mod statements;
mod table;

pub use gatherer::Gatherer;
pub use name_set::NameSet;
pub use names::read_in;
pub use region::{Kind, Mention, Region};
pub use scope::{Scope, ScopeErr};
pub use scopes::{Scopes, resolve};
pub use statements::gathered;
pub use table::{Names, Table};
