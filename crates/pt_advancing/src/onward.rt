//! What waits goes on, once nothing more is told.
ghost use Rattle.std.specs.Prelude.{◌≡◌, IfOk};
ghost use Rattle.pt_advancing.specs.Proceeding.{ended, ended_in, proceeded, told_on};
ghost use Rattle.pt_closing.specs.pt_turning.Turning.{ending};
ghost use Rattle.pt_closing.specs.pt_turning.pt_telling.Telling.{told};

use pt_base::{Memory, Seq};
use pt_closing::{
    BlockCode, Machine, Standing, Turn, Waiting, begin_block, end_block, go_on, module_end, tell,
};
use pt_happenings::Happening;
use pt_pendings::{End, Pending};

/// What became of a turn.
#[derive(Clone, Copy)]
pub enum Advanced {
    /// It is done.
    Turned(Turn),
    /// An instruction is next, where the newest activation stands so, and nothing has been done.
    AtInstruction(Standing),
    /// Nothing more is told, and this is to go on: an ask, or the result of a block for which another
    /// activation waits.
    Onward(Waiting),
}

/// The run ends with the block of the newest activation, where none waits for it.
fn end_module(machine: &Machine, block: &BlockCode, end: End, waiting: Waiting) -> Advanced
    ensures { result ≡ ended_in machine.now.openers block.now end waiting machine.now }
{
    if machine.openers.len() == 0 {
        Advanced::Turned(Turn::Ends(module_end(machine, block, end)))
    } else {
        Advanced::Onward(waiting)
    }
}

/// What waits in the newest activation, of this block, goes on, once nothing more is told: the block
/// begins, it goes on where it stands, or the run ends with the module.
pub fn proceed(machine: &mut Machine, block: &BlockCode, waiting: Waiting) -> Advanced
    ensures { record { advanced = result; machine = machine.new }
        ≡ proceeded block.now waiting machine.old }
{
    match waiting.pending {
        Pending::Starting => {
            begin_block(machine, waiting.standing);
            Advanced::Turned(Turn::Goes)
        }
        Pending::Going { .. } => {
            go_on(machine, waiting.standing);
            Advanced::Turned(Turn::Goes)
        }
        Pending::Ending { end } => end_module(machine, block, end, waiting),
        Pending::Doing { .. } | Pending::GivingOn { .. } | Pending::GoingOn { .. } => {
            Advanced::Onward(waiting)
        }
    }
}

/// Tells all of this in the newest activation, of this block, and where no event is told what waits
/// goes on.
///
/// # Errors
///
/// `Memory` for want of it.
pub fn tell_and_proceed(
    machine: &mut Machine,
    block: &BlockCode,
    happenings: Seq<Happening>,
    waiting: Waiting,
) -> Result<Advanced, Memory>
    ensures { IfOk result (λ a. record { advanced = a; machine = machine.new }
        ≡ told_on block.now waiting (told block.now waiting happenings machine.old)) }
{
    if tell(machine, block, happenings, waiting)? {
        return Ok(Advanced::Turned(Turn::Goes));
    }
    Ok(proceed(machine, block, waiting))
}

/// What waits at the end of a block.
fn ending(end: End) -> Waiting
    ensures { result ≡ ending end }
{
    let standing = match end {
        End::Gave(value) => Standing::Returns(value),
        End::LeftBy(exception) => Standing::Raises(exception),
    };
    Waiting {
        standing,
        active: None,
        pending: Pending::Ending { end },
    }
}

/// The block of the newest activation ends, which is told, and where no event is told the run ends
/// with it, or its result is to go on.
///
/// # Errors
///
/// `Memory` for want of it.
pub fn end_block_and_proceed(
    machine: &mut Machine,
    block: &BlockCode,
    end: End,
) -> Result<Advanced, Memory>
    ensures { IfOk result (λ a. record { advanced = a; machine = machine.new }
        ≡ ended block.now end machine.old) }
{
    if end_block(machine, block, end)? {
        return Ok(Advanced::Turned(Turn::Goes));
    }
    Ok(proceed(machine, block, ending(end)))
}
