//! A law of the acts of a block, the contract of a function that does nothing.

ghost use Rattle.law_parts.specs.act_parts.Laws.{ActsLieInParts};

/// Where the code of a block is that of its piece, each place to which some way comes and at which
/// an act begins lies in the parts of the nest that the tree gives the act, with their slots below
/// all others; an exit that is due lies in its own part and in that of the body of its `with`
/// (Library Reference, "inspect": `f_lineno`; Language Reference 8.2 to 8.5).
pub fn the_acts_of_a_block_lie_in_their_parts<A, V>()
    ensures { ActsLieInParts A V }
{}
