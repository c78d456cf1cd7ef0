//! Laws of the code of a script, each the contract of a function that does nothing.

ghost use Rattle.law_pieces.specs.script_code.Laws.{ScriptIsCode};

/// In a script without a fault in its declarations, the code of each block is that of what the block
/// runs: over any values, in a code object that shows what was written, and that has the value None,
/// the truths and the names which control has.
pub fn the_code_of_a_script_is_its_code<V>()
    ensures { ScriptIsCode V }
{}
