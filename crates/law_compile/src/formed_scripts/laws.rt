//! Laws of scripts as the grammar forms them, each the contract of a function that does nothing.

ghost use Rattle.law_compile.specs.formed_scripts.Laws.{ScriptsAreFormed};

/// Where a wide tree is formed as the grammar forms it, so is the tree of the language that it is:
/// arguments by name have names, the body of each `try` has a statement, and each `with` an item
/// (Language Reference 6.3.4, 8.4, 8.5).
pub fn a_script_is_formed_as_its_wide_tree()
    ensures { ScriptsAreFormed }
{}
