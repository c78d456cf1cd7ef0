//! Laws of the definitions, each the contract of a function that does nothing.

ghost use Rattle.std.specs.Prelude.{◌≡◌, ℕ, slice_get, Some};
ghost use Rattle.pt_block_names.specs.Named.{names_with};
ghost use Rattle.sem_names.specs.Around.{names_of};
ghost use Rattle.sem_names.specs.Script.{naming_script};
ghost use Rattle.pt_tree.specs.Blocks.{Block, blocks_script};
ghost use Rattle.pt_tree.specs.Syntax.{Stms};

/// The names that a block of a script has in code are those with its parameters.
pub fn a_block_has_the_names_with_its_parameters()
    ensures { (ss : Stms) (b : ℕ) (k : Block) → slice_get (blocks_script ss) b ≡ Some k
        → names_of ss b ≡ names_with (naming_script ss) b k.params }
{}
