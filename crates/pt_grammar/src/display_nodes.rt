//! Nodes of tuples without parentheses, and of `yield` (Language Reference 6.2.9, 6.15).

ghost use Rattle.std.specs.Prelude.{◌≡◌, ◌≤◌, map, IfOk};
ghost use Rattle.pt_wide.specs.Fold.{exp_of, all_of};
ghost use Rattle.pt_wide.specs.Syntax as S;

use crate::deep::{Deep, Several};
use pt_base::{Boxed, Line, Memory};
use pt_wide::{WideExpr, WideNode};
use std::alloc::Global;

/// `a, b`
#[tactic(auto, using(pt_wide::proofs::Folds::expressions))]
pub fn tuple(alloc: Global, line: Line, items: Several) -> Result<Deep, Memory>
    requires { items.depth ≤ 500 }
    ensures { IfOk result (λ e. exp_of e.tree ≡ S.tuple line.0 (all_of (map exp_of items.items))) }
{
    let depth = items.depth + 1;
    let node = WideNode::Tuple(items.items);
    let tree = Boxed::new(alloc, WideExpr { line, node })?;
    Ok(Deep { tree, depth })
}

/// `yield`
#[tactic(auto, using(pt_wide::proofs::Folds::expressions))]
pub fn yield_nothing(alloc: Global, line: Line) -> Result<Deep, Memory>
    ensures { IfOk result (λ e. exp_of e.tree ≡ S.yield line.0 S.absent) }
{
    let node = WideNode::Yield(None);
    let tree = Boxed::new(alloc, WideExpr { line, node })?;
    Ok(Deep { tree, depth: 1 })
}

/// `yield value`
#[tactic(auto, using(pt_wide::proofs::Folds::expressions))]
pub fn yield_value(alloc: Global, line: Line, value: Deep) -> Result<Deep, Memory>
    requires { value.depth ≤ 500 }
    ensures { IfOk result (λ e. exp_of e.tree ≡ S.yield line.0 (S.given (exp_of value.tree))) }
{
    let depth = value.depth + 1;
    let node = WideNode::Yield(Some(value.tree));
    let tree = Boxed::new(alloc, WideExpr { line, node })?;
    Ok(Deep { tree, depth })
}

/// `yield from iterable`
#[tactic(auto, using(pt_wide::proofs::Folds::expressions))]
pub fn yield_from(alloc: Global, line: Line, iterable: Deep) -> Result<Deep, Memory>
    requires { iterable.depth ≤ 500 }
    ensures { IfOk result (λ e. exp_of e.tree ≡ S.yield_from line.0 (exp_of iterable.tree)) }
{
    let depth = iterable.depth + 1;
    let node = WideNode::YieldFrom(iterable.tree);
    let tree = Boxed::new(alloc, WideExpr { line, node })?;
    Ok(Deep { tree, depth })
}
