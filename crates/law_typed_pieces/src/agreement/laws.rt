//! Laws of the agreement of blocks, each the contract of a function that does nothing.

ghost use Rattle.law_typed_pieces.specs.agreement.Laws.{BlocksAgree};

/// Where the code of a block is that of its piece, the block agrees: each place gets one list of
/// kinds, no handler row leaves more slots than lie below what an instruction takes or slots of two
/// kinds, each instruction finds what it takes and reads, each jump out of a loop has the slots of its
/// target, and each step leads to an instruction. Where instructions may stand, and that a jump out of
/// a loop leads to an instruction, isn't told here.
pub fn blocks_agree<A, V>()
    ensures { BlocksAgree A V }
{}
