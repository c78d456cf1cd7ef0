//! Laws of the names of scripts, each the contract of a function that does nothing.

ghost use Rattle.law_operands.specs.piece_names.Laws.{NamesAreFound};

/// In the blocks of a script names are found as the pieces of their code ask, where no argument has
/// for a name what stands for one without: what a comprehension binds is a name of its block alone
/// (Language Reference 6.2.4).
pub fn names_are_found_as_pieces_ask<V>()
    ensures { NamesAreFound V }
{}
