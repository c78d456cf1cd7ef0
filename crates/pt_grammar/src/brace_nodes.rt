//! Displays of sets and dictionaries from their parts (Language Reference 6.2.6, 6.2.7).

ghost use Rattle.std.specs.Prelude.{◌≡◌, ◌≢◌, ◌≤◌, ◌++◌, ◌∷◌, [], map, IfOk};
ghost use Rattle.pt_wide.specs.Fold.{exp_of, all_of, entry_of};
ghost use Rattle.pt_wide.specs.Measure.{depth_entry, depth_entries};
ghost use Rattle.pt_wide.specs.Syntax as S;
ghost use Rattle.pt_grammar.specs.Nodes.{clauses_of, entries_of};
ghost use Rattle.pt_grammar.specs.Views.{clauses_in};

use crate::comprehension_nodes::first_apart;
use crate::deep::{Clauses, Deep, Several};
use pt_base::{Boxed, Line, Memory, Seq};
use pt_wide::{WideClause, WideEntry, WideExpr, WideNode};
use std::alloc::Global;

/// An entry of a dictionary, and how deep the nodes of its deepest part stand.
#[derive(Drop)]
pub struct Entry {
    pub tree: WideEntry,
    pub depth: u32,
    ghost exact: { depth ≡ depth_entry (entry_of tree) },
}

/// Entries of a dictionary, and how deep the nodes of the deepest stand.
#[derive(Drop)]
pub struct Entries {
    pub items: Seq<WideEntry>,
    pub depth: u32,
    ghost exact: { depth ≡ depth_entries (entries_of (map entry_of items)) },
}

impl Entry {
    /// `key: value`
    #[tactic(auto, using(pt_wide::proofs::Folds::expressions))]
    pub fn pair(key: Deep, value: Deep) -> Entry
        ensures { entry_of result.tree ≡ S.pair (exp_of key.tree) (exp_of value.tree) }
    {
        let depth = key.depth.max(value.depth);
        let tree = WideEntry::Pair {
            key: key.tree.into_inner(),
            value: value.tree.into_inner(),
        };
        Entry { tree, depth }
    }

    /// `**mapping`
    #[tactic(auto, using(pt_wide::proofs::Folds::expressions))]
    pub fn spread(line: Line, mapping: Deep) -> Entry
        ensures { entry_of result.tree ≡ S.spread_entry line.0 (exp_of mapping.tree) }
    {
        let depth = mapping.depth;
        let tree = WideEntry::Spread {
            line,
            mapping: mapping.tree.into_inner(),
        };
        Entry { tree, depth }
    }
}

impl Entries {
    pub fn new(alloc: Global) -> Entries
        ensures { result.items ≡ [] }
    {
        Entries {
            items: Seq::new(alloc),
            depth: 0,
        }
    }

    /// The same with one more behind the last.
    pub fn with(self, next: Entry) -> Result<Entries, Memory>
        ensures { IfOk result (λ s. map entry_of s.items ≡ map entry_of self.items ++ (entry_of next.tree ∷ [])) }
    {
        let Entries { mut items, depth } = self;
        items.push(next.tree)?;
        Ok(Entries {
            items,
            depth: depth.max(next.depth),
        })
    }
}

/// `{a, b}`
#[tactic(auto, using(pt_wide::proofs::Folds::expressions))]
pub fn set(alloc: Global, line: Line, items: Several) -> Result<Deep, Memory>
    requires { items.depth ≤ 500 }
    ensures { IfOk result (λ e. exp_of e.tree ≡ S.set line.0 (all_of (map exp_of items.items))) }
{
    let depth = items.depth + 1;
    let node = WideNode::Set(items.items);
    let tree = Boxed::new(alloc, WideExpr { line, node })?;
    Ok(Deep { tree, depth })
}

/// `{a: b, **c}`
#[tactic(auto, using(pt_wide::proofs::Folds::expressions))]
pub fn dict(alloc: Global, line: Line, entries: Entries) -> Result<Deep, Memory>
    requires { entries.depth ≤ 500 }
    ensures { IfOk result (λ e. exp_of e.tree ≡ S.dict line.0 (entries_of (map entry_of entries.items))) }
{
    let depth = entries.depth + 1;
    let node = WideNode::Dict(entries.items);
    let tree = Boxed::new(alloc, WideExpr { line, node })?;
    Ok(Deep { tree, depth })
}

#[tactic(auto, using(pt_wide::proofs::Folds::expressions))]
fn entry_for(
    alloc: Global,
    line: Line,
    entry: Boxed<WideEntry>,
    clauses: Seq<WideClause>,
) -> Result<Boxed<WideExpr>, Memory>
    requires { clauses ≢ [] }
    ensures { IfOk result (λ e. exp_of e ≡ S.dict_comprehension line.0 (entry_of entry) (clauses_of (clauses_in clauses))) }
{
    let (first, rest) = first_apart(alloc, clauses)?;
    let node = WideNode::DictComprehension {
        entry,
        first: Boxed::new(alloc, first)?,
        rest,
    };
    let tree = Boxed::new(alloc, WideExpr { line, node })?;
    Ok(tree)
}

/// `{a: b for ..}`
pub fn dict_comprehension(
    alloc: Global,
    line: Line,
    entry: Entry,
    clauses: Clauses,
) -> Result<Deep, Memory>
    requires entry { entry.depth ≤ 500 }
    requires clauses { clauses.depth ≤ 500 }
    requires some { clauses.items ≢ [] }
    ensures { IfOk result (λ e. exp_of e.tree ≡ S.dict_comprehension line.0 (entry_of entry.tree) (clauses_of (clauses_in clauses.items))) }
{
    let depth = entry.depth.max(clauses.depth) + 1;
    let held = Boxed::new(alloc, entry.tree)?;
    let tree = entry_for(alloc, line, held, clauses.items)?;
    Ok(Deep { tree, depth })
}
