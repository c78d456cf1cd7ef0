//! Laws of the tables made of a script's code, each the contract of a function that does nothing.

ghost use Rattle.law_loading.specs.loaded_scripts.Laws.{
  CodeHasItsModule,
  ConstantsHaveTheirTexts,
  LoadedScriptHasTables,
  LoadedScriptIsRead,
};

/// What is made of the code of a script that is read has the tables of the script: there are code
/// objects of its blocks, and what the tables have is what these and the program say. With these
/// objects the script is read, so that its code has its bare runs (Library Reference, "inspect":
/// code objects; Language Reference 3.2.13.1).
pub fn a_loaded_script_has_its_tables()
    ensures tables { LoadedScriptHasTables }
    ensures read { LoadedScriptIsRead }
{}

/// The code of a script has a block at least, its module.
pub fn a_code_has_its_module()
    ensures { CodeHasItsModule }
{}

/// Each text of a constant that the code of a script gives is one of the texts that the host has,
/// so that it has an object in each run (Library Reference, "inspect": code objects).
pub fn constants_have_their_texts()
    ensures { ConstantsHaveTheirTexts }
{}
