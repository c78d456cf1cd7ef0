//! Laws of the fields of a script's code, each the contract of a function that does nothing.

ghost use Rattle.law_files.specs.code_files.Laws.{
  InstructionsNameInside,
  MarksRise,
  ModuleHasNoFreeNames,
  ModuleStandsFirst,
  ParametersAreLocals,
  ScriptHasFile,
  TextsAreKnown,
};

/// In each block of a script's code the marks of acts stand one behind another.
pub fn marks_of_a_script_rise()
    ensures { MarksRise }
{}

/// The first block of a script's code is the module, and no other block is one. Only functions and
/// generators have parameters (Language Reference 4.1, 8.7).
pub fn the_module_stands_first()
    ensures { ModuleStandsFirst }
{}

/// Each text that the constants, lists and blocks of a script's code have by its number is one of the
/// code's texts.
pub fn texts_of_a_script_are_known()
    ensures { TextsAreKnown }
{}

/// In the code of a script whose blocks have their numbers each block has an instruction, and each
/// operand of its instructions names what there is: a text, a constant, a list or a block of the
/// code, a local or a cell of the block, an operator.
pub fn instructions_name_what_there_is()
    ensures { InstructionsNameInside }
{}

/// In a script without a fault in its declarations each block has as many locals as parameters, or
/// more (Language Reference 8.7).
pub fn parameters_of_a_script_are_locals()
    ensures { ParametersAreLocals }
{}

/// The module of a script whose blocks have their numbers has no free names, where its declarations
/// have no fault (Language Reference 4.2.2).
pub fn the_module_has_no_free_names()
    ensures { ModuleHasNoFreeNames }
{}

/// The code of a script has a file, where the blocks of the script have their numbers, its
/// declarations have no fault, and the numbers and texts of the code are of their sizes: each field
/// of the code is one.
pub fn a_script_has_a_file()
    ensures { ScriptHasFile }
{}
