//! The syntax tree of the wide grammar: that of the language, with the forms that are left out of it
//! and with any expression in a target's place (Language Reference 6 to 8).
#![tactic(auto)]

mod expression;
mod statement;

pub use expression::{
    Comprehension, WideArgument, WideBinOp, WideClause, WideComparison, WideEntry, WideExpr,
    WideNode, WideParameter, WideParameters, WidePiece,
};
pub use statement::{
    WideBranch, WideDecorator, WideHandler, WideItem, WideScript, WideStmt, WideStmtNode,
};
