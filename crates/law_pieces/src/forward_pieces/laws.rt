//! Laws of pieces that go forward, each the contract of a function that does nothing.

ghost use Rattle.law_pieces.specs.forward_pieces.Laws.{PiecesGoAhead, PiecesGoForward};

/// In the piece of each block whatever has no mark goes on behind itself, to a label ahead, or to
/// the head of a loop behind which an act is near (Language Reference 8.3, 6.2.4).
#[tactic(auto, using(crate::proofs::forward_pieces::Statements::pieces_go_forward))]
pub fn pieces_of_blocks_go_forward<V>()
    ensures { PiecesGoForward V }
{}

/// Where such a piece stands as all of a block, the code of the block goes ahead.
#[tactic(auto, using(crate::proofs::forward_pieces::Places::pieces_go_ahead))]
pub fn code_of_forward_pieces_goes_ahead<V>()
    ensures { PiecesGoAhead V }
{}
