ghost use Rattle.sem_fits.specs.fits.Block.{Block};
ghost use Rattle.pt_verify_leaves.specs.Held.{AreOfBlock};

/// What is told up to the end of a block is told of the block.
pub fn held_leaves_of_a_block()
    ensures { (b : Block) → AreOfBlock b }
{}
