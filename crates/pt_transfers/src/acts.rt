//! Acts begin.
ghost use Rattle.std.specs.Prelude.{◌≡◌, OnOk};
ghost use Rattle.std.specs.Option.{option_map};
ghost use Rattle.sem_control.specs.control.LineEvents.{is_told};
ghost use Rattle.sem_code.specs.slots.Steps.{mark_of};
ghost use Rattle.pt_machine_state.specs.Changes.{at_act, line_events};
ghost use Rattle.pt_machine_state.specs.Writing.{Adds};

use crate::events::tell;
use pt_base::{Line, Memory};
use pt_machine_state::{BlockCode, Machine, Writes};
use pt_ranges::ActMark;

/// Whether the line of an act is told in a frame with this line (PEP 626).
pub fn is_told(line: Option<Line>, mark: ActMark) -> bool
    ensures { result ≡ is_told (option_map (λ l. l.0) line) (mark_of mark) }
{
    match line {
        Some(line) => mark.again || mark.line.0 != line.0,
        None => true,
    }
}

/// An act begins in the newest activation: it takes its unit, the frame has its line, and that is
/// told. Where 2^64 - 1 units are taken it answers Memory.
///
/// # Errors
///
/// `Memory` for want of it.
pub fn begin_act(
    machine: &mut Machine,
    writes: &mut Writes,
    block: &BlockCode,
    mark: ActMark,
) -> Result<(), Memory>
    ensures machine { OnOk result (machine.new ≡ at_act mark machine.old) }
    ensures writes { OnOk result (Adds writes.old writes.new
        (line_events mark block.now machine.old)) }
{
    let Some(units) = machine.units.checked_add(1) else {
        return Err(Memory);
    };
    let told = is_told(machine.here.line, mark);
    machine.units = units;
    machine.here.line = Some(mark.line);
    if told {
        tell(machine, block, "line", "", writes)?;
    }
    Ok(())
}
