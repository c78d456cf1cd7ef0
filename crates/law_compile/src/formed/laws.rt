//! Laws of trees as the grammar forms them, each the contract of a function that does nothing.

ghost use Rattle.law_compile.specs.formed.Laws.{ArgumentsArePlain, BlocksAreFormed, StatementsHaveParts};

/// What each block of a script runs is formed as the grammar forms it, if the script is.
pub fn blocks_of_a_script_are_formed()
    ensures { BlocksAreFormed }
{}

/// No argument in it has for a name what stands for an argument without one (Language Reference
/// 6.3.4), whatever None is.
pub fn arguments_are_plain<V>()
    ensures { ArgumentsArePlain V }
{}

/// Each `try` in it has a statement in its body, and each `with` an item (Language Reference 8.4,
/// 8.5).
pub fn statements_of_a_block_have_their_parts()
    ensures { StatementsHaveParts }
{}
