//! Clauses of comprehensions from their parts (Language Reference 6.2.4).

ghost use Rattle.std.specs.Prelude.{◌≡◌, ◌++◌, ◌∷◌, [], map, IfOk};
ghost use Rattle.pt_wide.specs.Fold.{exp_of};
ghost use Rattle.pt_wide.specs.Measure.{depth_clauses};
ghost use Rattle.pt_grammar.specs.Nodes.{a_clause_of, clauses_of};
ghost use Rattle.pt_grammar.specs.Views.{clause_in, clauses_in};

use crate::deep::{Clauses, Deep, Several};
use pt_base::{Line, Memory, Seq};
use pt_wide::WideClause;
use std::alloc::Global;

/// A clause, and how deep the nodes of its deepest part stand.
#[derive(Drop)]
pub struct Clause {
    pub tree: WideClause,
    pub depth: u32,
    ghost exact: { depth ≡ depth_clauses (clauses_of (clause_in tree ∷ [])) },
}

impl Clause {
    /// `for target in iterable if ..`
    pub fn new(line: Line, target: Deep, iterable: Deep, conditions: Several) -> Clause
        ensures { clause_in result.tree ≡ a_clause_of line.0 (exp_of target.tree) (exp_of iterable.tree) (map exp_of conditions.items) }
    {
        let depth = target.depth.max(iterable.depth.max(conditions.depth));
        let tree = WideClause {
            line,
            target: target.tree.into_inner(),
            iterable: iterable.tree.into_inner(),
            conditions: conditions.items,
        };
        Clause { tree, depth }
    }
}

impl Clauses {
    pub fn new(alloc: Global) -> Clauses
        ensures { result.items ≡ [] }
    {
        Clauses {
            items: Seq::new(alloc),
            depth: 0,
        }
    }

    /// The same with one more behind the last.
    pub fn with(self, next: Clause) -> Result<Clauses, Memory>
        ensures { IfOk result (λ s. clauses_in s.items ≡ clauses_in self.items ++ (clause_in next.tree ∷ [])) }
    {
        let Clauses { mut items, depth } = self;
        items.push(next.tree)?;
        Ok(Clauses {
            items,
            depth: depth.max(next.depth),
        })
    }
}
