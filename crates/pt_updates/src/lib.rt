//! Updates of lists, dictionaries and sets that are made in the object itself, so that they cost
//! nothing of what else it holds (Language Reference 6.2.4, 7.2; Library Reference, "Mutable
//! Sequence Types", "Set Types", "Mapping Types").
#![tactic(auto)]

mod update;

pub use pt_mappings::{Keyed, key_in};
pub use update::{Update, update_at};
