//! Tables of names: keywords, builtins, methods, special methods, monitoring events and debugger
//! commands.
#![tactic(auto)]

mod lists;
mod rows;
mod table;

pub use lists::{builtins, commands, events, keywords, methods, specials};
pub use table::Table;
