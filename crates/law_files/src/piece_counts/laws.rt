//! The law of what is counted, the contract of a function that does nothing.

ghost use Rattle.law_files.specs.piece_counts.Laws.{WhatIsCountedHasCode};

/// In the piece of a block each count of an instruction, as of the items of a display, the
/// arguments of a call or the targets of an unpacking, is at most that of the instructions: each
/// item has one.
pub fn what_is_counted_has_code<V>()
    ensures { WhatIsCountedHasCode V }
{}
