//! Which expressions may stand in a target's place (Language Reference 7.2).

ghost use Rattle.std.specs.Prelude.{◌≡◌, map};
ghost use Rattle.pt_wide.specs.Fold.{exp_of, all_of};
ghost use Rattle.pt_parser.specs.Targets.{form_of, form_in, is_place as place, is_starred as starred, are_starred as all_starred, is_target as target};

use pt_wide::{WideExpr, WideNode};

/// What an expression was read as.
#[derive(Drop)]
pub(crate) enum Sort<'a> {
    /// It may stand in a target's place.
    Place,
    /// The same behind a star.
    Starred,
    /// Several without parentheses.
    Tuple(&'a [WideExpr]),
    /// It may not.
    Looser,
}

#[tactic(auto, using(pt_wide::proofs::Folds::expressions))]
fn sort_of(e: &WideExpr) -> Sort<'_>
    ensures { form_in result ≡ form_of (exp_of e.now) }
{
    match &e.node {
        WideNode::Constant(_) => Sort::Place,
        WideNode::Name(_) => Sort::Place,
        WideNode::Joined(_) => Sort::Place,
        WideNode::Parenthesized(_) => Sort::Place,
        WideNode::Starred(_) => Sort::Starred,
        WideNode::Tuple(items) => Sort::Tuple(items.as_slice()),
        WideNode::List(_) => Sort::Place,
        WideNode::Set(_) => Sort::Place,
        WideNode::Dict(_) => Sort::Place,
        WideNode::Attribute { .. } => Sort::Place,
        WideNode::Item { .. } => Sort::Place,
        WideNode::Slice { .. } => Sort::Looser,
        WideNode::Unary { .. } => Sort::Place,
        WideNode::Not(_) => Sort::Looser,
        WideNode::Binary { .. } => Sort::Place,
        WideNode::Compare { .. } => Sort::Looser,
        WideNode::And { .. } => Sort::Looser,
        WideNode::Or { .. } => Sort::Looser,
        WideNode::Conditional { .. } => Sort::Looser,
        WideNode::Call { .. } => Sort::Place,
        WideNode::Lambda { .. } => Sort::Looser,
        WideNode::Comprehension { .. } => Sort::Place,
        WideNode::DictComprehension { .. } => Sort::Place,
        WideNode::Yield(_) => Sort::Looser,
        WideNode::YieldFrom(_) => Sort::Looser,
    }
}

/// Whether it may stand in a target's place.
pub(crate) fn is_place(e: &WideExpr) -> bool
    ensures { result ≡ place (exp_of e.now) }
{
    match sort_of(e) {
        Sort::Place => true,
        Sort::Starred => false,
        Sort::Tuple(_) => false,
        Sort::Looser => false,
    }
}

/// Whether it may, perhaps behind a star.
fn is_starred(e: &WideExpr) -> bool
    ensures { result ≡ starred (exp_of e.now) }
{
    match sort_of(e) {
        Sort::Place => true,
        Sort::Starred => true,
        Sort::Tuple(_) => false,
        Sort::Looser => false,
    }
}

/// Whether each of them may, perhaps behind a star.
fn are_starred(items: &[WideExpr]) -> bool
    ensures { result ≡ all_starred (all_of (map exp_of items.now)) }
{
    let mut left = items;
    'items: while let Some((first, rest)) = left.split_first() {
        if !is_starred(first) {
            return false;
        }
        left = rest;
    }
    true
}

/// Whether it may stand before `=`: one target, or several.
pub(crate) fn is_target(e: &WideExpr) -> bool
    ensures { result ≡ target (exp_of e.now) }
{
    match sort_of(e) {
        Sort::Place => true,
        Sort::Starred => true,
        Sort::Tuple(items) => are_starred(items),
        Sort::Looser => false,
    }
}
