//! What may stand in a target's place of the wide grammar (Language Reference 7.2).

ghost use Rattle.std.specs.Prelude.{◌≡◌, map};
ghost use Rattle.pt_refine_expr.specs.Targets.{are_items as are_items_of, are_targets as are_targets_of, is_bracketed as is_bracketed_form, is_inside_target as is_inside_target_of, is_item as is_item_of, is_operand as is_operand_of};
ghost use Rattle.pt_wide.specs.Fold.{all_of, exp_of};

use pt_wide::{Comprehension, WideExpr, WideNode};

/// Whether the brackets of a comprehension are its own.
fn is_bracketed(form: Comprehension) -> bool
    ensures { result ≡ is_bracketed_form form }
{
    match form {
        Comprehension::List => true,
        Comprehension::Set => true,
        Comprehension::Generator => false,
    }
}

/// Whether it is an operand of a comparison, or what binds closer.
fn is_operand(e: &WideExpr) -> bool
    ensures { result ≡ is_operand_of (exp_of e.now) }
{
    match &e.node {
        WideNode::Constant(_) => true,
        WideNode::Name(_) => true,
        WideNode::Joined(_) => true,
        WideNode::Parenthesized(_) => true,
        WideNode::Starred(_) => false,
        WideNode::Tuple(_) => false,
        WideNode::List(_) => true,
        WideNode::Set(_) => true,
        WideNode::Dict(_) => true,
        WideNode::Attribute { .. } => true,
        WideNode::Item { .. } => true,
        WideNode::Slice { .. } => false,
        WideNode::Unary { .. } => true,
        WideNode::Not(_) => false,
        WideNode::Binary { .. } => true,
        WideNode::Compare { .. } => false,
        WideNode::And { .. } => false,
        WideNode::Or { .. } => false,
        WideNode::Conditional { .. } => false,
        WideNode::Call { .. } => true,
        WideNode::Lambda { .. } => false,
        WideNode::Comprehension { form, .. } => is_bracketed(*form),
        WideNode::DictComprehension { .. } => true,
        WideNode::Yield(_) => false,
        WideNode::YieldFrom(_) => false,
    }
}

fn is_item(e: &WideExpr) -> bool
    ensures { result ≡ is_item_of (exp_of e.now) }
{
    match &e.node {
        WideNode::Starred(item) => is_operand(item.get()),
        _ => is_operand(e),
    }
}

fn are_items(items: &[WideExpr]) -> bool
    ensures { result ≡ are_items_of (all_of (map exp_of items.now)) }
{
    for item in items {
        if !is_item(item) {
            return false;
        }
    }
    true
}

/// Whether brackets hold targets of the wide grammar, one at least.
pub fn are_targets(items: &[WideExpr]) -> bool
    ensures { result ≡ are_targets_of (all_of (map exp_of items.now)) }
{
    if items.is_empty() {
        return false;
    }
    are_items(items)
}

/// Whether parentheses hold a target of the wide grammar.
pub fn is_inside_target(inside: &WideExpr) -> bool
    ensures { result ≡ is_inside_target_of (exp_of inside.now) }
{
    match &inside.node {
        WideNode::Tuple(items) => are_targets(items.as_slice()),
        _ => is_item(inside),
    }
}
