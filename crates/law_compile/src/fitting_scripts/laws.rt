//! Laws of which code of scripts fits, each the contract of a function that does nothing.

ghost use Rattle.law_compile.specs.fitting_scripts.Laws.{BlocksOfScriptsFit, BlocksOfTextsFit, CodeOfTextsFits};
ghost use Rattle.law_compile.specs.fitting_scripts.Laws.{SizesTellTheDepth};

/// Each block of the code of a script fits, where its declarations have no fault, the script has
/// the form that the grammar gives it, its blocks are numbered and have the names that are free in
/// them, operands have room and no place gets more than 16,777,216 slots.
pub fn blocks_of_scripts_fit()
    ensures { BlocksOfScriptsFit }
{}

/// So does each block of the code of a text that is a script, where its operands have room and no
/// place gets more than 16,777,216 slots.
pub fn blocks_of_texts_fit()
    ensures { BlocksOfTextsFit }
{}

/// So does each block of the code of a text that is a script, where the counts of the code's tables
/// and bytes have room, as the compiler says of what it gives, and those of cells, as the loader
/// says of what it takes.
pub fn code_of_texts_fits()
    ensures { CodeOfTextsFits }
{}

/// No place of a block gets more than 16,777,216 slots where no size is greater.
pub fn sizes_tell_the_depth()
    ensures { SizesTellTheDepth }
{}
