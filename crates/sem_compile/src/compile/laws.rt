//! Laws of the code of a script, each the contract of a function that does nothing.

ghost use Rattle.sem_compile.specs.compile.Laws.{AsManyBlocks, BlocksAreLaidOut};

/// Each block of a script's code is what the piece of the script's block with its number is laid
/// out to, and the tables of the code have those of the block.
pub fn the_blocks_of_a_script_are_laid_out()
    ensures { BlocksAreLaidOut }
{}

/// A code has a block for each block of the script.
pub fn a_code_has_as_many_blocks()
    ensures { AsManyBlocks }
{}
