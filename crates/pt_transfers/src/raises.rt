//! Exceptions that come to the newest activation.
ghost use Rattle.std.specs.Prelude.{◌≡◌, OnOk};
ghost use Rattle.pt_machine_state.specs.Changes.{entered, entry_at, heap_with_entry};
ghost use Rattle.pt_machine_state.specs.Changes.{raise_events, raised_at};
ghost use Rattle.pt_machine_state.specs.Views.{active_of};
ghost use Rattle.pt_machine_state.specs.Writing.{Adds};

use crate::events::tell_exception;
use crate::landings::land;
use crate::lines::line;
use pt_base::{Line, Memory};
use pt_frames::Activation;
use pt_heap::{Completion, Heap, Object, TraceEntry, Value};
use pt_machine_state::{BlockCode, Machine, Writes};

/// The exception that is active in the run (Language Reference 7.8).
pub fn active(machine: &Machine) -> Option<Value>
    ensures { result ≡ active_of machine.now }
{
    match machine.here.slots.active() {
        Some(exception) => Some(exception),
        None => machine.frames.active_exception(),
    }
}

/// An exception gets an entry of its traceback, at a line of an activation.
#[tactic(auto, using(crate::proofs::EntryLemmas::entry_put, crate::proofs::EntryLemmas::other_put_back, crate::proofs::EntryLemmas::nothing_there))]
fn enter(
    exception: Value,
    activation: &Activation,
    line: Line,
    heap: &mut Heap,
) -> Result<(), Memory>
    ensures { OnOk result
        (heap.new ≡ heap_with_entry exception (entry_at activation.now line.0) heap.old) }
{
    let Value::Obj(id) = exception else {
        return Ok(());
    };
    if id.0 >= heap.len() {
        return Ok(());
    }
    match heap.set(id, Object::Generator(0)) {
        Object::Error(mut error) => {
            error.trace.push(TraceEntry {
                frame: activation.frame,
                block: activation.block,
                line,
            })?;
            heap.set(id, Object::Error(error));
            Ok(())
        }
        other => {
            heap.set(id, other);
            Ok(())
        }
    }
}

/// An exception that comes to the newest frame gets an entry of its traceback, where the frame is
/// visible.
fn enter_frame(machine: &mut Machine, block: &BlockCode, exception: Value) -> Result<(), Memory>
    ensures { OnOk result (machine.new ≡ entered block.now exception machine.old) }
{
    if machine.here.hidden {
        return Ok(());
    }
    let line = line(machine, block);
    enter(exception, &machine.here, line, &mut machine.heap)
}

/// An exception arises in the newest activation: its traceback has the frame, it is told, and it
/// lands (Language Reference 7.8, 8.4).
///
/// # Errors
///
/// `Memory` for want of it.
pub fn raise(
    machine: &mut Machine,
    block: &BlockCode,
    exception: Value,
    writes: &mut Writes,
) -> Result<(), Memory>
    ensures machine { OnOk result (machine.new ≡ raised_at block.now exception machine.old) }
    ensures writes { OnOk result (Adds writes.old writes.new
        (raise_events exception block.now machine.old)) }
{
    enter_frame(machine, block, exception)?;
    tell_exception(machine, block, exception, writes)?;
    land(machine, block, Completion::Raise(exception))
}
