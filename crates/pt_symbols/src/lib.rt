//! Tables of the names of a script: the names that its regions have free, those that are captured, its
//! comprehensions by number, and the mentions of each block.
#![tactic(auto)]

mod frees;
mod makers;
mod mentions;
mod name_list;
mod nexts;
mod places;
mod region_set;

pub use frees::FreeNames;
pub use makers::{
    captured_names, class_makers, class_regions, free_names, mention_table, next_table,
};
pub use mentions::MentionTable;
pub use name_list::NameList;
pub use nexts::NextTable;
pub use places::{PlaceTable, dotted_name};
pub use region_set::RegionSet;
pub use sem_names::BlockShape;
