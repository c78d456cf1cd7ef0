//! Laws of jumps out of loops, each the contract of a function that does nothing.

ghost use Rattle.law_typed_pieces.specs.leave_targets.Laws.{BlocksAgreeThere, LeavesLeadInside};

/// Where the code of a block is that of its piece, each jump out of a loop leads to where an
/// instruction stands (Language Reference 7.9, 7.10).
pub fn leaves_lead_to_instructions<A, V>()
    ensures { LeavesLeadInside A V }
{}

/// Such a block agrees, if each instruction may stand in a block of its kind: places get one list of
/// kinds, instructions find what they take and read, jumps out of loops have the slots of their
/// targets, and no way leads to where no instruction stands.
pub fn blocks_agree_where_instructions_stand<A, V>()
    ensures { BlocksAgreeThere A V }
{}
