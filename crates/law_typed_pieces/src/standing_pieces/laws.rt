//! The law of where instructions stand, the contract of a function that does nothing.

ghost use Rattle.law_typed_pieces.specs.standing_pieces.Laws.{InstructionsMayStand};

/// In the code of a script without a fault in its declarations each instruction may stand in a
/// block of its kind, and names what it may name (Language Reference 4.2.2, 6.2.8, 6.2.9, 6.3.4,
/// 8.7, 8.8).
pub fn instructions_may_stand()
    ensures { InstructionsMayStand }
{}
