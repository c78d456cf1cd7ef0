//! Laws of names in a supported script's code, each the contract of a function that does nothing.

ghost use Rattle.law_loading.specs.code_names.Laws.{
  SupportedCodeNamesItsBlocks,
  SupportedCodeRunsWithItsNames,
};

/// In the code of a supported script that is loaded each number of a name is one of the block's, an
/// instruction that makes a function takes as many defaults as it names, and as many cells as the
/// function's block has free names (Library Reference, "dis").
pub fn supported_code_names_its_blocks()
    ensures { SupportedCodeNamesItsBlocks }
{}

/// So wherever strides lead in a run of the code, the newest activation and each that waits have
/// the names of their blocks, and each function has as many cells as its block has free names
/// (Language Reference 4.2.2, 8.7).
pub fn supported_code_runs_with_its_names()
    ensures { SupportedCodeRunsWithItsNames }
{}
