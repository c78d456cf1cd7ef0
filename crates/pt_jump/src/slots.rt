ghost use Rattle.std.specs.Prelude.{◌≡◌, MatchBool};
ghost use Rattle.sem_fits.specs.fits.Block.{Block};
ghost use Rattle.sem_fits.specs.fits.Leaves.{Common};
ghost use Rattle.pt_jump.specs.Slots.{SlotsTold};

use pt_base::Pc;

/// Knows of the places of a block what a jump asks of their slots.
pub trait PlaceSlots {
    ghost told: { Self → SlotsTold };

    /// What holds of it whatever the block is, so that it may be asked of slots in common.
    ghost sound: { Self → Type 0 };

    /// Whether what it knows of slots in common is so of a block.
    ghost tells: { Self → Block → Type 0 };

    /// How many slots lie at a place, if some way comes to it.
    fn count(&self, pc: Pc) -> Option<u32>
        ensures { result ≡ (told self.now).count pc.0 };

    /// How many of its lowest slots there are up to the topmost that holds a completion.
    fn held(&self, pc: Pc) -> u32
        ensures { result ≡ (told self.now).held pc.0 };

    /// Whether a slot, counted from the lowest, is the same at two places.
    fn is_shared(&self, slot: u32, one: Pc, other: Pc) -> bool
        requires { sound self.now }
        ensures { (b : Block) → tells self.now b → MatchBool result
            (Common b b.size slot one.0 other.0) (Common b b.size slot one.0 other.0 → ⊥) };
}
