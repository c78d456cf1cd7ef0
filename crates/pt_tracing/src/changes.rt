//! The trace function of the newest frame, and the global one.
ghost use Rattle.std.specs.Prelude.{◌≡◌, OnOk};
ghost use Rattle.pt_tracing.specs.Answers.{answered, failed};

use pt_base::Memory;
use pt_events::{Event, EventKind};
use pt_heap::Value;
use pt_run_state::{BlockCode, Machine, line};

/// A trace function answered to an event of this kind in the newest frame, whose block this is.
///
/// # Errors
///
/// `Memory` for want of it.
pub fn trace_answered(
    machine: &mut Machine,
    block: &BlockCode,
    kind: EventKind,
    answer: Value,
) -> Result<(), Memory>
    ensures { OnOk result (machine.new ≡ answered kind answer machine.old) }
{
    let event = Event {
        kind,
        frame: machine.code.here.frame,
        block: machine.code.here.block,
        act: machine.course.act,
        line: line(&machine.code, block),
        generator: machine.course.generator,
    };
    machine.hooks.answered(&event, answer)
}

/// A trace function raised, and is unset.
pub fn trace_failed(machine: &mut Machine)
    ensures { machine.new ≡ failed machine.old }
{
    machine.hooks.failed();
}
