//! That names of an activation are read and written at their numbers as by their texts.

ghost use Rattle.sem_rows.specs.variables.Numbers.{CellsStand, LocalsStand};

/// The value of a local name, and the cell of a name that has one, are read and written at the
/// number of the name as by its text, where the names of the block are different.
pub fn names_stand_at_their_numbers()
    ensures locals { LocalsStand }
    ensures cells { CellsStand }
{}
