//! Events of the newest activation have lines in the log.
ghost use Rattle.std.specs.Prelude.{◌≡◌, OnOk};
ghost use Rattle.pt_machine_state.specs.Changes.{events_of, exception_events};
ghost use Rattle.pt_machine_state.specs.Writing.{Adds};

use crate::lines::line;
use crate::writing::event;
use pt_base::{Memory, Text};
use pt_content::class_name;
use pt_heap::Value;
use pt_machine_state::{BlockCode, Machine, Writes};

/// Tells an event of the newest activation, unless its block is hidden.
///
/// # Errors
///
/// `Memory` for want of it.
pub fn tell(
    machine: &Machine,
    block: &BlockCode,
    word: &str,
    behind: &str,
    writes: &mut Writes,
) -> Result<(), Memory>
    ensures { OnOk result (Adds writes.old writes.new
        (events_of word.now behind.now block.now machine.now)) }
{
    if machine.here.hidden {
        return Ok(());
    }
    event(
        writes,
        word,
        line(machine, block),
        block.name.as_str(),
        behind,
    )
}

/// Tells that an exception comes to the newest activation.
///
/// # Errors
///
/// `Memory` for want of it.
pub fn tell_exception(
    machine: &Machine,
    block: &BlockCode,
    exception: Value,
    writes: &mut Writes,
) -> Result<(), Memory>
    ensures { OnOk result (Adds writes.old writes.new
        (exception_events exception block.now machine.now)) }
{
    let mut behind = Text::from_str(machine.alloc, " ")?;
    behind.push_str(class_name(&machine.heap, exception))?;
    tell(machine, block, "exception", behind.as_str(), writes)
}
