//! Laws of the code of a code file, each the contract of a function that does nothing.

ghost use Rattle.law_loading.specs.code_program.Laws.{
  BuiltCodeIsNeverStuck,
  BuiltCodeNamesItsBlocks,
  LoadedCodeHasTables,
  RunOfCodeBeginsWithNames,
};

/// What is made of a code that has a file, whose blocks fit and which is supported, has its tables:
/// there are code objects of its blocks, and the tables have what these and the program say
/// (Library Reference, "inspect": code objects; Language Reference 3.2.13.1).
pub fn a_loaded_code_has_its_tables()
    ensures { LoadedCodeHasTables }
{}

/// In such a code each number of a name is one of the block's, at each place, and a function is made
/// with as many defaults and cells as its block takes. A run of its module begins with the names of
/// that (Library Reference, "dis"; Language Reference 4.2.2, 8.7).
pub fn built_code_names_its_blocks()
    ensures operands { BuiltCodeNamesItsBlocks }
    ensures begins { RunOfCodeBeginsWithNames }
{}

/// A run of it is never stuck, under each bound on acts.
pub fn built_code_is_never_stuck()
    ensures { BuiltCodeIsNeverStuck }
{}
