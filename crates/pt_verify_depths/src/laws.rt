//! Laws of what the verifier computes, each the contract of a function that does nothing.

ghost use Rattle.std.specs.Prelude.{ℕ};
ghost use Rattle.pt_ranges.specs.declared.handlers.Handler.{Handler};
ghost use Rattle.pt_code.specs.declared.Code.{Code};
ghost use Rattle.sem_fits.specs.fits.Block.{Block};
ghost use Rattle.pt_verify_depths.specs.Objects.{ObjectRuns};
ghost use Rattle.pt_verify_depths.specs.PlaceTable.{TablesTell};
ghost use Rattle.pt_verify_depths.specs.Laws.{AsDeep, AsFew, AsLengths, KindsHaveSizes, SizesHaveKinds};
ghost use Rattle.pt_verify_depths.specs.Refusals.{RefusedFirst, SizesRefuse};
ghost use Rattle.pt_verify_depths.specs.Views.{BlocksAreSeen};

/// The sizes of places are the lengths of their kinds, whatever these are.
#[tactic(auto, using(crate::proofs::SizeLemmas::kinds_have_sizes, crate::proofs::SizeLemmas::sizes_have_kinds))]
pub fn sizes_are_lengths()
    ensures kinds { (b : Block) → KindsHaveSizes b }
    ensures sizes { (b : Block) → SizesHaveKinds b }
{}

/// So sizes decide whether lengths meet, whether a handler row is too deep and whether an
/// instruction has enough slots.
#[tactic(auto, using(crate::proofs::SizeLemmas::sizes_meet_as_lengths, crate::proofs::SizeLemmas::rows_are_as_deep, crate::proofs::SizeLemmas::lack_as_few))]
pub fn sizes_decide()
    ensures meet { (b : Block) (p : ℕ) → AsLengths b p }
    ensures deep { (b : Block) (p : ℕ) (row : Handler) → AsDeep b p row }
    ensures few { (b : Block) (p : ℕ) → AsFew b p }
{}

/// What is told of the table of a block's places is told of the block.
#[tactic(auto, using(crate::proofs::PlaceTable::tables_tell))]
pub fn a_table_tells_of_its_block()
    ensures { (b : Block) → TablesTell b }
{}

/// What is told of the sizes of a block is told of its refusals: below the place that is told a
/// block fails by nothing but what needs kinds, and there it is refused as sizes say, two lengths
/// before a handler row and this before too few slots; only the cuts under a row come between. And
/// whatever fails by lengths where the block first fails is told.
pub fn sizes_tell_refusals()
    ensures told { (b : Block) → SizesRefuse b }
    ensures first { (b : Block) → RefusedFirst b }
{}

/// Each block of a code that has a file has a view, so that what is told by any view is told of it.
pub fn blocks_that_are_read_are_seen()
    ensures { (c : Code) → BlocksAreSeen c }
{}

/// The code object of a block that fits runs it.
#[tactic(auto, using(crate::proofs::ObjectRuns::object_runs))]
pub fn a_code_object_runs_its_block<V>()
    ensures { ObjectRuns V }
{}
