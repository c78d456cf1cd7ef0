//! The law of names of blocks, the contract of a function that does nothing.

ghost use Rattle.law_block_names.specs.Names.{BlocksHaveSuchNames};

/// The name of each block of a text's script, which is an identifier in NFKC or one that its kind
/// gives it, has no line end (Language Reference 2.3).
pub fn no_line_end_parts_the_name_of_a_block()
    ensures { BlocksHaveSuchNames }
{}
