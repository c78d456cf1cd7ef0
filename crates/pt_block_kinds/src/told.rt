//! What the flow of kinds tells of a block.
ghost use Rattle.std.specs.Prelude.{◌≡◌, ◌<◌, ℕ, List, length, Option, Some, option_map, IfOk, MatchBool};
ghost use Rattle.std.specs.Bool.{Decides};
ghost use Rattle.pt_code.specs.View.{Ins};
ghost use Rattle.sem_fits.specs.fits.Block.{Block};
ghost use Rattle.pt_kinds.specs.Forest.{list_at};
ghost use Rattle.pt_kind_flow.specs.Search.{IsFlow};
ghost use Rattle.pt_block_kinds.specs.Graph.{HasSizes, IsSeen};
ghost use Rattle.pt_block_kinds.specs.Drawing.{Draws};
ghost use Rattle.pt_block_kinds.specs.Told.{IsShort, ShortAt, ShortPlace, TellsCut, TellsListAt, TellsShortRow, TwoMeet};

use crate::graph::BlockKinds;
use crate::leads::sum;
use pt_base::Memory;
use pt_ranges::Handler;

impl BlockKinds {
    /// Whether the lists that come to a vertex have fewer slots in common than so many.
    fn is_short(&self, vertex: usize, count: u64) -> bool
        requires { IsFlow self.now.flow }
        ensures { MatchBool result (IsShort self.now.flow vertex count)
            (IsShort self.now.flow vertex count → ⊥) }
    {
        match self.flow.longest(vertex) {
            None => false,
            Some(list) => self.flow.forest.len(list) < count,
        }
    }

    /// The first row whose vertex has fewer slots than the row leaves.
    fn short_row(&self, rows: &[Handler]) -> Result<Option<usize>, Memory>
        requires { IsFlow self.now.flow }
        ensures { IfOk result (λ row. TellsShortRow self.now rows.now row) }
    {
        for at in 0..rows.len() {
            if self.is_short(sum(self.rows_from, at)?, rows[at].depth as u64) {
                return Ok(Some(at));
            }
        }
        Ok(None)
    }

    /// The first handler row under which cuts differ.
    ///
    /// # Errors
    ///
    /// `Memory` where there would be 2^64 vertices, as there are of no block.
    #[tactic(auto, using(crate::proofs::Failing::no_cut))]
    pub fn first_cut(
        &self,
        rows: &[Handler],
        sizes: &[Option<u64>],
    ) -> Result<Option<usize>, Memory>
        requires { IsFlow self.now.flow }
        ensures { IfOk result (λ row. (b : Block) (p : ℕ) → b.handlers ≡ rows.now
            → Draws b p sizes.now self.now → IsSeen b (length sizes.now) → HasSizes b p sizes.now
            → TellsCut b p row) }
    {
        if sizes.is_empty() {
            return Ok(None);
        }
        self.short_row(rows)
    }

    /// Whether the vertex of a place has fewer slots than the place.
    fn is_short_at(&self, sizes: &[Option<u64>], at: usize) -> bool
        requires flow { IsFlow self.now.flow }
        requires inside { at < length sizes.now }
        ensures { MatchBool result (ShortAt self.now.flow sizes.now at)
            (ShortAt self.now.flow sizes.now at → ⊥) }
    {
        match sizes[at] {
            None => false,
            Some(size) => self.is_short(at, size),
        }
    }

    fn has_short_place(&self, sizes: &[Option<u64>]) -> bool
        requires { IsFlow self.now.flow }
        ensures { Decides result (ShortPlace self.now.flow sizes.now) }
    {
        for at in 0..sizes.len() {
            if self.is_short_at(sizes, at) {
                return true;
            }
        }
        false
    }

    /// Whether a place gets two lists.
    pub fn meets(&self, sizes: &[Option<u64>]) -> bool
        requires { IsFlow self.now.flow }
        ensures { (b : Block) (p : ℕ) → Draws b p sizes.now self.now → IsSeen b (length sizes.now)
            → HasSizes b p sizes.now → Decides result (TwoMeet b p) }
    {
        self.has_short_place(sizes)
    }

    /// The kinds of slots at a place, as the number of their list; None where it gets none. It
    /// takes constant time.
    pub fn kinds_at(&self, at: usize) -> Option<usize>
        requires { IsFlow self.now.flow }
        ensures { (b : Block) (p : ℕ) (sizes : List (Option ℕ)) → Draws b p sizes self.now
            → IsSeen b (length sizes) → HasSizes b p sizes → (TwoMeet b p → ⊥) → (i : Ins)
            → b.at at ≡ Some i
            → TellsListAt b p at (option_map (list_at self.now.flow.forest) result) }
    {
        self.flow.longest(at)
    }
}
