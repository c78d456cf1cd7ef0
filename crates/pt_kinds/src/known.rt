//! Which node is that of a run upon another node.
ghost use Rattle.std.specs.Prelude.{◌≡◌, IfOk, MatchBool, OnErr};
ghost use Rattle.pt_kinds.specs.Known.{Adds, IsSame, IsEmpty, known_at, rank};

use pt_base::Memory;
use pt_instr::Kind;
use std::alloc::Global;
use std::collections::BTreeMap;

/// Where a kind stands in the order of keys.
fn rank(kind: Kind) -> u8
    ensures { result ≡ rank kind }
{
    match kind {
        Kind::Value => 0,
        Kind::Cell => 1,
        Kind::Iter => 2,
        Kind::Exc => 3,
        Kind::Pending => 4,
        Kind::With => 5,
    }
}

/// Whether two kinds are the same.
pub fn is_kind(one: Kind, other: Kind) -> bool
    ensures { MatchBool result (one ≡ other) (one ≡ other → ⊥) }
{
    rank(one) == rank(other)
}

/// The nodes by what they are: the node below, how many slots and of which kind.
#[derive(Debug, Drop)]
pub struct Known {
    pub nodes: BTreeMap<((usize, u64), u8), usize>,
}

impl Known {
    pub fn new(alloc: Global) -> Known
        ensures { IsEmpty result }
    {
        Known {
            nodes: BTreeMap::new(alloc),
        }
    }

    pub fn find(&self, parent: usize, count: u64, kind: Kind) -> Option<usize>
        ensures { result ≡ known_at self.now parent count kind }
    {
        self.nodes.get(&((parent, count), rank(kind))).copied()
    }

    /// Adds a node.
    pub fn add(&mut self, parent: usize, count: u64, kind: Kind, node: usize) -> Result<(), Memory>
        ensures ok { IfOk result (λ _. Adds self.old self.new parent count kind node) }
        ensures err { OnErr result (IsSame self.old self.new) }
    {
        self.nodes.insert(((parent, count), rank(kind)), node)?;
        Ok(())
    }
}
