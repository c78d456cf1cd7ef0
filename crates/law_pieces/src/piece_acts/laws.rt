//! A law of marks, the contract of a function that does nothing.

ghost use Rattle.law_pieces.specs.piece_acts.Laws.{MarksTellActs};

/// In the code of each block the greatest number of a mark is that of its last act: so there are as
/// many acts as the marks tell.
#[tactic(auto, using(crate::proofs::piece_acts::Marks::marks_tell_acts))]
pub fn marks_tell_how_many_acts_a_block_has<V>()
    ensures { MarksTellActs V }
{}
