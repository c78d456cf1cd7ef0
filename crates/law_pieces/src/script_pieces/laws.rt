//! Laws of the definitions, each the contract of a function that does nothing.

ghost use Rattle.std.specs.Prelude.{◌≡◌, ℕ, slice_get, Some, None};
ghost use Rattle.pt_scopes.specs.Mentions.{places_script};
ghost use Rattle.pt_scopes.specs.Refusals.{fault_of};
ghost use Rattle.pt_tree.specs.Blocks.{Block, blocks_script};
ghost use Rattle.pt_tree.specs.Syntax.{Stms};
ghost use Rattle.sem_names.specs.Around.{around_of};
ghost use Rattle.sem_compile.specs.stm_pieces.Laws.{StandsInLoops};
ghost use Rattle.sem_compile.specs.stm_pieces.Names.{TakesCells};

/// What the blocks of a script take along is in cells (Language Reference 4.2.2).
pub fn blocks_take_cells_along<V>()
    ensures { (v : V) (ss : Stms) (b : ℕ) → TakesCells (around_of v ss b) }
{}

/// In a script without a fault in its declarations each `break` and `continue` stands in a loop of its
/// block (Language Reference 7.9, 7.10).
pub fn exits_stand_in_loops()
    ensures { (ss : Stms) (b : ℕ) (k : Block) → fault_of (places_script ss) ≡ None
        → slice_get (blocks_script ss) b ≡ Some k → StandsInLoops k.code }
{}
