//! The law, the contract of a function that does nothing.

ghost use Rattle.law_operands.specs.free_pieces.Laws.{BlocksHaveTheirFreeNames};

/// In a script without a fault in its declarations, whose blocks have their numbers and in which no
/// name is the one that stands for a class, each block of the code has as many free names as the
/// script's block: its operands name those that the block has from further out, and no others
/// (Language Reference 4.2.2).
pub fn blocks_of_a_script_have_their_free_names()
    ensures { BlocksHaveTheirFreeNames }
{}
