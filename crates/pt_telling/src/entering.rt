//! Exceptions that come to the newest frame.
ghost use Rattle.std.specs.Prelude.{◌≡◌, List, OnOk};
ghost use Rattle.pt_tracing.specs.pt_machine_state.Changes.{entered, entry_at, heap_with_entry};
ghost use Rattle.pt_telling.specs.Telling.{entered_by, entered_by_all};

use pt_base::{Line, Memory};
use pt_frames::Activation;
use pt_happenings::Happening;
use pt_heap::{Heap, Object, TraceEntry, Value};
use pt_tracing::{BlockCode, Machine, line};

/// An exception gets an entry of its traceback, at a line of an activation.
#[tactic(auto, using(crate::proofs::Entries::entry_put, crate::proofs::Entries::other_put_back, crate::proofs::Entries::nothing_there))]
fn enter(
    exception: Value,
    activation: &Activation,
    line: Line,
    heap: &mut Heap,
) -> Result<(), Memory>
    ensures { OnOk result
        (heap.new ≡ heap_with_entry exception (entry_at activation.now line.0) heap.old) }
{
    let Value::Obj(id) = exception else {
        return Ok(());
    };
    if id.0 >= heap.len() {
        return Ok(());
    }
    match heap.set(id, Object::Generator(0)) {
        Object::Error(mut error) => {
            error.trace.push(TraceEntry {
                frame: activation.frame,
                block: activation.block,
                line,
            })?;
            heap.set(id, Object::Error(error));
            Ok(())
        }
        other => {
            heap.set(id, other);
            Ok(())
        }
    }
}

/// What was told of had its turn in the newest activation: an exception that arose has an entry of
/// its traceback, where the frame is visible.
///
/// # Errors
///
/// `Memory` for want of it.
pub fn enter_told(machine: &mut Machine, block: &BlockCode, what: Happening) -> Result<(), Memory>
    ensures { OnOk result (machine.new ≡ entered_by block.now what machine.old) }
{
    let Happening::Raises(exception) = what else {
        return Ok(());
    };
    let code = &mut machine.code;
    if code.here.hidden {
        return Ok(());
    }
    let line = line(code, block);
    enter(exception, &code.here, line, &mut code.heap)
}

/// So had all of these.
///
/// # Errors
///
/// `Memory` for want of it.
#[tactic(auto, using(crate::proofs::Entries::told_next, crate::proofs::Entries::told_all))]
pub fn enter_all_told(
    machine: &mut Machine,
    block: &BlockCode,
    told: &[Happening],
) -> Result<(), Memory>
    ensures { OnOk result (machine.new ≡ entered_by_all block.now told.now machine.old) }
{
    for what in told {
        enter_told(machine, block, *what)?;
    }
    Ok(())
}
