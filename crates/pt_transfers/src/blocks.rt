//! The block of the newest activation.
ghost use Rattle.std.specs.Prelude.{◌≡◌};
ghost use Rattle.pt_machine_state.specs.Blocks.{block_at};
ghost use Rattle.pt_machine_state.specs.Views.{block_of};

use pt_machine_state::{BlockCode, Blocks, Machine};

/// What the machine knows of the newest activation's block, in constant time.
pub fn block_of<'a>(machine: &Machine, blocks: &'a Blocks) -> &'a BlockCode
    ensures { result.now ≡ block_at blocks.now (block_of machine.now.here) }
{
    blocks.at(machine.here.block, machine.here.hidden)
}
