//! How far two lists of kinds are the same.
ghost use Rattle.std.specs.Prelude.{◌≡◌, slice_get, take, MatchBool};
ghost use Rattle.pt_kinds.specs.Forest.{IsForest, IsInside, list_at};
ghost use Rattle.pt_kinds.specs.Common.{IsCommon, IsRunAt, IsSameRun};

use crate::forest::Forest;
use crate::known::is_kind;
use pt_instr::Kind;

/// So many slots of a kind upon a list.
#[derive(Clone, Copy, Debug)]
pub struct RunUpon {
    pub parent: usize,
    pub count: u64,
    pub kind: Kind,
}

impl Forest {
    /// The lowest slots of a list, so many of them: the run on top, and the list on which it lies.
    fn run_at(&self, list: usize, depth: u64) -> RunUpon
        requires forest { IsForest self.now }
        requires inside { IsInside self.now list }
        ensures { IsRunAt self.now list depth result }
    {
        let top = self.at(self.floor(list, depth));
        if top.length <= depth {
            return RunUpon {
                parent: top.parent,
                count: top.count,
                kind: top.kind,
            };
        }
        let below = self.at(top.parent).length;
        RunUpon {
            parent: top.parent,
            count: depth.saturating_sub(below),
            kind: top.kind,
        }
    }

    /// Whether the lowest slots of two lists, so many of them, are of the same kinds.
    pub fn agrees(&self, one: usize, other: usize, depth: u64) -> bool
        requires forest { IsForest self.now }
        requires one { IsInside self.now one }
        requires other { IsInside self.now other }
        ensures { MatchBool result
            (take depth (list_at self.now one) ≡ take depth (list_at self.now other))
            (take depth (list_at self.now one) ≡ take depth (list_at self.now other) → ⊥) }
    {
        is_same_run(self.run_at(one, depth), self.run_at(other, depth))
    }

    /// How many of the lowest slots of two lists are of the same kinds. Lists of which one begins with
    /// the other, as equal ones do, take one comparison.
    pub fn common(&self, one: usize, other: usize) -> u64
        requires forest { IsForest self.now }
        requires one { IsInside self.now one }
        requires other { IsInside self.now other }
        ensures { IsCommon (list_at self.now one) (list_at self.now other) result }
    {
        let mut low = 0;
        let mut high = self.len(one).min(self.len(other));
        if self.agrees(one, other, high) {
            return high;
        }
        while low < high {
            let middle = high - (high - low) / 2;
            if self.agrees(one, other, middle) {
                low = middle;
            } else {
                high = middle - 1;
            }
        }
        low
    }

    /// The kind of a slot, counted from the lowest.
    pub fn slot(&self, list: usize, at: u64) -> Option<Kind>
        requires forest { IsForest self.now }
        requires inside { IsInside self.now list }
        ensures { result ≡ slice_get (list_at self.now list) at }
    {
        if at >= self.len(list) {
            return None;
        }
        Some(self.run_at(list, at + 1).kind)
    }
}

/// Whether two runs make the same list.
fn is_same_run(one: RunUpon, other: RunUpon) -> bool
    ensures { MatchBool result (IsSameRun one other) (IsSameRun one other → ⊥) }
{
    one.count == other.count
        && (one.count == 0 || one.parent == other.parent && is_kind(one.kind, other.kind))
}
