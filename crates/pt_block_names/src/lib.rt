//! How the blocks of a script name their variables: the scope of each name, the names that
//! comprehensions have of their own, private names, the variables whose cells blocks take along, and the
//! names that each block has in code.
#![tactic(auto)]

mod block_names;
mod lists;
mod script_names;
mod tables;
mod variable;

pub use block_names::BlockNames;
pub use lists::NameLists;
pub use script_names::ScriptNames;
pub use variable::Variable;
