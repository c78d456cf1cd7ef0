//! The laws, each the contract of a function that does nothing.

ghost use Rattle.law_supported.specs.Laws.{
  BuiltBlocksHaveTheirNames,
  BuiltCellsAreDifferent,
};

/// In a supported script without a fault in its declarations, whose blocks have their numbers and
/// in which no name is the one that stands for a class, the code of each block has the local names,
/// those in cells and the free ones that the block is said to have, and no others (Language
/// Reference 4.2.2).
pub fn blocks_of_a_supported_script_have_their_names()
    ensures { BuiltBlocksHaveTheirNames }
{}

/// In a supported script in which no name begins with a dot, as that of a comprehension does in
/// code, the names in cells of a block are different, and so are its free names; none is both but
/// that of the class for `super` (Language Reference 4.2.2, 6.2.4, 8.8).
pub fn names_in_cells_of_a_supported_script_differ()
    ensures { BuiltCellsAreDifferent }
{}
