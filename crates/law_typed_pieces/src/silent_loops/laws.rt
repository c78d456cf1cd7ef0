//! Laws of loops, each the contract of a function that does nothing.

ghost use Rattle.law_typed_pieces.specs.silent_loops.Laws.{BlocksHaveActsInLoops, HeldJumpsLeadAhead};

/// Where the code of a block is that of its piece, an act begins on each walk that comes back to
/// where it began, also where `finally` parts and exits hold a jump on the way (Language Reference
/// 7.9, 8.2 to 8.5): no part of the block is a silent loop.
pub fn each_loop_of_a_block_has_an_act<A, V>()
    ensures { BlocksHaveActsInLoops A V }
{}

/// In such a block a `break` or `continue` that a `finally` part or an exit holds leads ahead from
/// where it is let go.
pub fn jumps_that_are_held_lead_ahead<A, V>()
    ensures { HeldJumpsLeadAhead A V }
{}
