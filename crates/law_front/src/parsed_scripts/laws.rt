//! The law of trees that are read, the contract of a function that does nothing.

ghost use Rattle.law_front.specs.parsed_scripts.Laws.{ScriptsAreParsed};

/// Whatever holds of each name among the tokens holds of each name in the tree that they are; and
/// there the body of each `try` has a statement, and each `with` an item (Language Reference 8).
pub fn scripts_are_parsed()
    ensures { ScriptsAreParsed }
{}
