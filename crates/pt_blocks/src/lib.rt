//! Visits the blocks of a script.
#![tactic(auto)]

mod expressions;
mod script;
mod statements;
mod visitor;

pub use script::visit;
pub use visitor::BlockVisitor;
