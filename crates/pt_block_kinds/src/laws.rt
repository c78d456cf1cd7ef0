//! Laws of the graph of a block, each the contract of a function that does nothing.

ghost use Rattle.pt_block_kinds.specs.Laws.{ComeAsGotten};

/// To a place of a block's graph come the kinds that it gets, and to a handler row the cuts under
/// it.
#[tactic(auto, using(crate::proofs::Gotten::come_as_gotten))]
pub fn kinds_come_along_edges()
    ensures { ComeAsGotten }
{}
