//! Nodes of comprehensions from their parts (Language Reference 6.2.4).

ghost use Rattle.std.specs.Prelude.{◌≡◌, ◌≢◌, ◌≤◌, ◌∷◌, [], reverse, IfOk};
ghost use Rattle.pt_wide.specs.Fold.{exp_of};
ghost use Rattle.pt_wide.specs.Syntax as S;
ghost use Rattle.pt_grammar.specs.Nodes.{clauses_of};
ghost use Rattle.pt_grammar.specs.Views.{clauses_in};

use crate::deep::{Clauses, Deep};
use pt_base::{Boxed, Line, Memory, Seq};
use pt_wide::{Comprehension, WideClause, WideExpr, WideNode};
use std::alloc::Global;

/// The same clauses from the last to the first.
#[tactic(auto, using(crate::proofs::ClauseLemmas::turn_one))]
fn turned(alloc: Global, clauses: Seq<WideClause>) -> Result<Seq<WideClause>, Memory>
    ensures { IfOk result (λ s. s ≡ reverse clauses) }
{
    let mut left = clauses;
    let mut turned = Seq::new(alloc);
    'turn: while let Some(last) = left.pop() {
        turned.push(last)?;
    }
    Ok(turned)
}

/// The first clause, and those behind it.
pub fn first_apart(
    alloc: Global,
    clauses: Seq<WideClause>,
) -> Result<(WideClause, Seq<WideClause>), Memory>
    requires { clauses ≢ [] }
    ensures { IfOk result (λ s. s.0 ∷ s.1 ≡ clauses) }
{
    let mut backwards = turned(alloc, clauses)?;
    let Some(first) = backwards.pop() else {
        unreachable!()
    };
    let rest = turned(alloc, backwards)?;
    Ok((first, rest))
}

/// `item for ..`
#[tactic(auto, using(pt_wide::proofs::Folds::expressions))]
pub fn comprehension(
    alloc: Global,
    line: Line,
    form: Comprehension,
    item: Deep,
    clauses: Clauses,
) -> Result<Deep, Memory>
    requires item { item.depth ≤ 500 }
    requires clauses { clauses.depth ≤ 500 }
    requires some { clauses.items ≢ [] }
    ensures { IfOk result (λ e. exp_of e.tree ≡ S.comprehension line.0 form (exp_of item.tree) (clauses_of (clauses_in clauses.items))) }
{
    let depth = item.depth.max(clauses.depth) + 1;
    let (first, rest) = first_apart(alloc, clauses.items)?;
    let node = WideNode::Comprehension {
        form,
        item: item.tree,
        first: Boxed::new(alloc, first)?,
        rest,
    };
    let tree = Boxed::new(alloc, WideExpr { line, node })?;
    Ok(Deep { tree, depth })
}
