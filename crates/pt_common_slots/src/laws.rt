ghost use Rattle.std.specs.Prelude.{ℕ};
ghost use Rattle.sem_fits.specs.fits.Block.{Block};
ghost use Rattle.pt_common_slots.specs.Held.{HeldByClasses};
ghost use Rattle.pt_common_slots.specs.Laws.{HaveOneNumber, SharedBySteps};

/// Where sizes agree up to a place and rows lead to places, slots are in common by the steps of
/// instructions and rows, and of each Leave from its own place, alone: what is in common doesn't
/// depend on what slots hold.
pub fn slots_are_shared_by_steps()
    ensures { (b : Block) (p : ℕ) → SharedBySteps b p }
{}

/// The number that stands for a slot is the same at two places just where these have the slot in
/// common.
pub fn slots_in_common_have_one_number()
    ensures { (b : Block) (p : ℕ) → HaveOneNumber b p }
{}

/// Where sizes agree up to a place and rows lead to places, what a slot may hold is found over the
/// slots that steps keep: a Leave goes from the slot of the row that takes it to that of the row
/// that takes it next, and by Exits.
pub fn what_slots_hold_is_found_by_steps()
    ensures { (b : Block) (p : ℕ) → HeldByClasses b p }
{}
