//! The reader of statements: what script the tokens of a text are by the wide grammar (Language
//! Reference 7 to 9).
#![tactic(auto)]

mod assignment_or_expression;
mod attempts;
mod blocks;
mod definitions;
mod heads;
mod imports;
mod inner;
mod item_nodes;
mod nodes;
mod reader;
mod script;
mod signs;
mod simple;
mod targets;
mod with_items;

pub use reader::Statements;
pub use script::wide_script;
