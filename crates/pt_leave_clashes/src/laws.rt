ghost use Rattle.std.specs.Prelude.{ℕ};
ghost use Rattle.sem_fits.specs.fits.Block.{Block};
ghost use Rattle.pt_leave_clashes.specs.Laws.{ClashAtPlaces};

/// Where nothing else clashes and no Leave leaves too few slots, a Leave leaves other kinds than
/// its target has just where one does so at its own place: where it is held and goes on, the slots
/// of the target are the same.
pub fn leaves_clash_at_their_places()
    ensures { (b : Block) (p : ℕ) → ClashAtPlaces b p }
{}
