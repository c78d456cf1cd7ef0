//! A block ends, and what waits goes on.
ghost use Rattle.std.specs.Prelude.{◌≡◌, IfOk};
ghost use Rattle.pt_turning.specs.Turning.{begun, block_ended, gone_on};

use pt_base::{Memory, Seq};
use pt_happenings::Happening;
use pt_pendings::{End, Pending};
use pt_telling::{BlockCode, Machine, Phase, Standing, Waiting, tell};

/// The block of the newest activation ends, which is told; it answers whether an event is, at which
/// hooks are to be asked.
///
/// # Errors
///
/// `Memory` for want of it.
pub fn end_block(machine: &mut Machine, block: &BlockCode, end: End) -> Result<bool, Memory>
    ensures { IfOk result (λ event. record { event = event; machine = machine.new }
        ≡ block_ended block.now end machine.old) }
{
    let (what, standing) = match end {
        End::Gave(value) => (Happening::Returns(value), Standing::Returns(value)),
        End::LeftBy(exception) => (Happening::Unwinds(exception), Standing::Raises(exception)),
    };
    let told = Seq::from_slice(machine.code.alloc, &[what])?;
    let waiting = Waiting {
        standing,
        active: None,
        pending: Pending::Ending { end },
    };
    tell(machine, block, told, waiting)
}

/// A block begins by the next turn, in an activation that stands so.
pub fn begin_block(machine: &mut Machine, standing: Standing)
    ensures { machine.new ≡ begun standing machine.old }
{
    machine.phase = Phase::Turning { standing };
}

/// What waited goes on by the next turn, in an activation that stands so.
pub fn go_on(machine: &mut Machine, standing: Standing)
    ensures { machine.new ≡ gone_on standing machine.old }
{
    let standing = match standing {
        Standing::Landed => Standing::AtPlace,
        standing => standing,
    };
    machine.phase = Phase::Turning { standing };
}
