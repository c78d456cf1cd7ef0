//! Which instructions may not stand where they are reached: of what kind their block is, and what
//! the lists and blocks are that they name.
#![tactic(auto)]

mod defaults;
mod ids;
mod marks;
mod reached;
mod stand;

pub use defaults::Defaults;
pub use ids::ids_of;
pub use reached::misplaced;
