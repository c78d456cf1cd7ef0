//! Documentation strings (Language Reference 8.7).

ghost use Rattle.std.specs.Prelude.{◌≡◌};
ghost use Rattle.pt_tree.specs.Blocks.{is_string, is_text as is_text_constant};
ghost use Rattle.pt_tree.specs.Fold.{exp_of};
ghost use Rattle.pt_tree.specs.StatementFold.{stm_of};
ghost use Rattle.pt_write_simple.specs.pt_stm_forms.Blocks.{is_docstring as is_docstring_statement};

use pt_tree::{Constant, Expr, ExprNode, Stmt, StmtNode};

/// Whether a statement is a text alone, which doesn't run where a function begins with it.
pub fn is_docstring(s: &Stmt) -> bool
    ensures { result ≡ is_docstring_statement (stm_of s.now) }
{
    match &s.node {
        StmtNode::Expr(value) => is_text(value),
        StmtNode::Assign { .. } => false,
        StmtNode::Augmented { .. } => false,
        StmtNode::Annotated { .. } => false,
        StmtNode::Assert { .. } => false,
        StmtNode::Pass => false,
        StmtNode::Del(_) => false,
        StmtNode::Return(_) => false,
        StmtNode::Raise { .. } => false,
        StmtNode::RaiseAgain => false,
        StmtNode::Break => false,
        StmtNode::Continue => false,
        StmtNode::Import(_) => false,
        StmtNode::ImportFrom { .. } => false,
        StmtNode::Global(_) => false,
        StmtNode::Nonlocal(_) => false,
        StmtNode::If { .. } => false,
        StmtNode::While { .. } => false,
        StmtNode::For { .. } => false,
        StmtNode::Try { .. } => false,
        StmtNode::With { .. } => false,
        StmtNode::Def { .. } => false,
        StmtNode::Class { .. } => false,
    }
}

fn is_text(e: &Expr) -> bool
    ensures { result ≡ is_string (exp_of e.now) }
{
    match &e.node {
        ExprNode::Constant(value) => is_text_value(value),
        ExprNode::Name(_) => false,
        ExprNode::Joined(_) => false,
        ExprNode::Tuple(_) => false,
        ExprNode::List(_) => false,
        ExprNode::Set(_) => false,
        ExprNode::Dict(_) => false,
        ExprNode::Attribute { .. } => false,
        ExprNode::Item { .. } => false,
        ExprNode::Slice { .. } => false,
        ExprNode::Unary { .. } => false,
        ExprNode::Not(_) => false,
        ExprNode::Binary { .. } => false,
        ExprNode::Compare { .. } => false,
        ExprNode::And { .. } => false,
        ExprNode::Or { .. } => false,
        ExprNode::Conditional { .. } => false,
        ExprNode::Call { .. } => false,
        ExprNode::Lambda { .. } => false,
        ExprNode::ListComprehension { .. } => false,
        ExprNode::SetComprehension { .. } => false,
        ExprNode::DictComprehension { .. } => false,
        ExprNode::Generator { .. } => false,
        ExprNode::Yield(_) => false,
        ExprNode::YieldFrom(_) => false,
    }
}

fn is_text_value(value: &Constant) -> bool
    ensures { result ≡ is_text_constant value.now }
{
    match value {
        Constant::None => false,
        Constant::Bool(_) => false,
        Constant::Ellipsis => false,
        Constant::Int(_) => false,
        Constant::Str(_) => true,
    }
}
