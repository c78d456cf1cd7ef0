//! Laws of the numbers of blocks, each the contract of a function that does nothing.

ghost use Rattle.std.specs.Prelude.{◌≡◌, Some};
ghost use Rattle.pt_tree.specs.Syntax as language;
ghost use Rattle.pt_wide.specs.Syntax as wide;
ghost use Rattle.pt_refine_expr.specs.StatementNarrow.{narrow_script};
ghost use Rattle.sem_control.specs.numbering.Numbered.{IsNumbered};

/// In the tree of the language that a wide tree is, each block has the number at which it stands
/// among the blocks of the script (Language Reference 4.1).
pub fn the_blocks_of_a_script_are_numbered()
    ensures { (script : wide.Stms) (narrow : language.Stms)
        → narrow_script script ≡ Some narrow → IsNumbered narrow }
{}
