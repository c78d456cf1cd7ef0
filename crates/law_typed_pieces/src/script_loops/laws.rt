//! A law of loops in the code of a script, the contract of a function that does nothing.

ghost use Rattle.law_typed_pieces.specs.script_loops.Laws.{ScriptsHaveActsInLoops};

/// In a script without a fault in its declarations, no block of its code has a silent loop, where
/// names are found as its pieces ask and blocks within have as many free names as they take cells
/// along.
pub fn each_loop_of_a_scripts_code_has_an_act<V>()
    ensures { ScriptsHaveActsInLoops V }
{}
