//! The law of slots in the code of a script, the contract of a function that does nothing.

ghost use Rattle.law_compile.specs.script_depths.Laws.{ScriptHasItsSizes};

/// In each block of the code of a script without a fault in its declarations the sizes of places
/// agree, and a place to which some way comes has as many slots as its size says (Library
/// Reference, "dis").
pub fn a_script_has_its_sizes<V>()
    ensures { ScriptHasItsSizes V }
{}
