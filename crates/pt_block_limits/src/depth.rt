ghost use Rattle.std.specs.Prelude.{ℕ, ◌≡◌};
ghost use Rattle.sem_fits.specs.fits.Block.{Block};
ghost use Rattle.pt_verify_depths.specs.PlaceTable.{AreSizes};
ghost use Rattle.pt_block_limits.specs.Limits.{TellsDepth};

/// How many slots an activation holds at most.
const MOST: u64 = 16_777_216;

/// Whether a place gets more slots than that, for the sizes of all places of a block. It takes time
/// linear in the block.
pub fn is_too_deep(sizes: &[Option<u64>]) -> bool
    ensures { (b : Block) → AreSizes b sizes.now → TellsDepth b result }
{
    for place in 0..sizes.len() {
        if let Some(size) = sizes[place]
            && size > MOST
        {
            return true;
        }
    }
    false
}
