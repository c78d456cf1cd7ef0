//! Laws of what a host knows of a script, the contract of a function that does nothing.

ghost use Rattle.law_loading.specs.script_program.Laws.{CodeTellsOfBlocks, LocalsAreDifferent};

/// What the code of a script tells of a block is what the script says of it, where the code has the
/// names of the block and declarations have no fault. The local names of a block are different
/// (Library Reference, "inspect": code objects; Language Reference 3.2.13.1, 4.2.2).
pub fn code_tells_of_blocks()
    ensures facts { CodeTellsOfBlocks }
    ensures locals { LocalsAreDifferent }
{}
