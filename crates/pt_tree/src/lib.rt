//! The syntax tree of a script (Language Reference 6 to 8).
#![tactic(auto)]

mod act;
mod expression;
pub mod laws;
mod statement;

pub use act::{ActKind, ActRow};
pub use expression::{
    Argument, Clause, Comparison, Constant, Conversion, Entry, Expr, ExprNode, NamedParameter,
    Parameter, Parameters, Piece, Place, PlaceNode, Target, TargetNode,
};
pub use statement::{Alias, Branch, Decorator, Handler, Script, Stmt, StmtNode, WithItem};
