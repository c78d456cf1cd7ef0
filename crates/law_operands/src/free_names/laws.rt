//! Laws of the free names of blocks, each the contract of a function that does nothing.

ghost use Rattle.law_operands.specs.free_names.FreeNames.{
  LookedUpIsFree,
  NamedIsFree,
  OperandsLeaveFreeNames,
  TakenAlongIsFree,
};

/// Code whose operands name none but the free names of its block has as many free names as the
/// block, where no name of the script is the one that stands for a class (Language Reference
/// 4.2.2).
pub fn operands_leave_free_names()
    ensures { OperandsLeaveFreeNames }
{}

/// In a script without a fault in its declarations, what is named in a block or in a comprehension
/// of it, and is a name of a function further out, is one of the block's free names (Language
/// Reference 4.2.2, 6.2.4).
pub fn a_name_from_further_out_is_a_free_name()
    ensures { NamedIsFree }
{}

/// So is what the block's code looks up under the name, outside of comprehensions or within those
/// whose first `Next`s have numbers (Language Reference 4.2.2, 6.2.4).
pub fn what_is_looked_up_further_out_is_a_free_name()
    ensures { LookedUpIsFree }
{}

/// What a block takes along that is a name of a function further out than its maker is one of its
/// maker's free names; so is the class for `super` (Language Reference 4.2.2).
pub fn what_is_taken_along_is_a_free_name()
    ensures { TakenAlongIsFree }
{}
