//! Laws of the code of a script, each the contract of a function that does nothing.

ghost use Rattle.std.specs.Prelude.{◌≡◌, ℕ};
ghost use Rattle.pt_tree.specs.Blocks.{Code};
ghost use Rattle.pt_tree.specs.Syntax.{Stms};
ghost use Rattle.sem_names.specs.Around.{around_of};
ghost use Rattle.sem_compile.specs.stm_pieces.StmPiece.{code_piece};
ghost use Rattle.law_code_runs.specs.code_follows.Laws.{BlocksHaveTheirCode, FreeNamesHaveCells, ScriptHasItsCode};

/// The code of a block in pieces is the same whatever the value None is.
pub fn code_does_not_depend_on_none<V>()
    ensures { (v : V) (ss : Stms) (b : ℕ) (c : Code)
        → code_piece (around_of v ss b) c ≡ code_piece (around_of {V = Unit {0}} tt ss b) c }
{}

/// Where the code of a script has the free names that it is said to have, each block takes as many
/// cells along as its code has free names (Language Reference 4.2.2).
pub fn each_free_name_of_code_has_a_cell()
    ensures { FreeNamesHaveCells }
{}

/// In a script without a fault in its declarations, a code object of a block of the script's code
/// has the code of what the block runs, and comes from its beginning to where it is in step with
/// control: where each block has as many free names as it is said to have, arguments are plain,
/// instructions have bytes, and some way comes to where an instruction leaves a loop to.
pub fn blocks_have_the_code_of_their_pieces<V>()
    ensures { BlocksHaveTheirCode V }
{}

/// So a machine of code whose objects are those of the code of a script stands for the script.
pub fn a_script_is_followed_by_its_code<V>()
    ensures { ScriptHasItsCode V }
{}
