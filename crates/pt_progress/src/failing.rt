//! Exceptions that instructions make, and by which blocks are left.
ghost use Rattle.std.specs.Prelude.{◌≡◌, None, drop, IfOk, OnOk};
ghost use Rattle.sem_rows.specs.pt_host.Calls.{arguments_of};
ghost use Rattle.pt_heap.specs.declared.value.Value.TheVariants.{Obj};
ghost use Rattle.sem_rows.specs.pt_host.Errors.{error, error_saying, object_place};
ghost use Rattle.sem_rows.specs.pt_host.World.{allot};
ghost use Rattle.pt_transfers.specs.pt_machine_state.Changes.{behind_block, end_in, left_at};
ghost use Rattle.pt_transfers.specs.pt_machine_state.Changes.{left_events, raise_events, raised_at};
ghost use Rattle.pt_transfers.specs.pt_machine_state.Changes.{visible_line};
ghost use Rattle.pt_transfers.specs.pt_machine_state.Writing.{Adds};
ghost use Rattle.pt_transfers.specs.pt_machine_state.Laws.{again_of};
ghost use Rattle.pt_transfers.specs.pt_machine_state.Views.{active_of};
ghost use Rattle.pt_transfers.specs.pt_machine_state.declared.machine.MachineEnd.TheVariants as ending;
ghost use Rattle.pt_transfers.specs.pt_machine_state.declared.machine.Stride.TheVariants as stride;
ghost use Rattle.pt_base.specs.declared.numbers.Line.{Line};
ghost use Rattle.pt_progress.specs.Arising.{ArisesOf, Leaves, LeavesBy, arisen};
ghost use Rattle.pt_progress.specs.Taking.{Refuses};

use pt_base::{Memory, ObjId, Pc, Seq, Text, What};
use pt_frames::{Purpose, Slots};
use pt_heap::{Completion, Heap, Value};
use pt_transfers::{
    BlockCode, Blocks, Machine, MachineEnd, Stride, Writes, active, go_to, print, raise,
    visible_line,
};
use sem_rows::heap_rows::Progress;
use sem_rows::{PrimAns, RUNTIME_ERROR, allot, arise_while, error, error_saying, is_stop};
use std::alloc::Global;

/// The run leaves the profile of the language where the innermost visible frame stands.
pub fn outside(machine: &Machine, blocks: &Blocks, what: What) -> Stride
    ensures { (line : Line) × (result ≡ stride.Ends (ending.Outside what line))
        × (line.0 ≡ visible_line blocks.now machine.now) }
{
    Stride::Ends(MachineEnd::Outside {
        what,
        line: visible_line(machine, blocks),
    })
}

/// The place of the object that a value is, if it is one.
fn object_place(value: Option<Value>) -> Option<ObjId>
    ensures { result ≡ object_place value }
{
    match value {
        Some(Value::Obj(id)) => Some(id),
        _ => None,
    }
}

/// An exception that is there already arises.
pub fn raise_there(
    machine: &mut Machine,
    writes: &mut Writes,
    block: &BlockCode,
    exception: ObjId,
) -> Result<(), Memory>
    ensures machine { OnOk result (machine.new
        ≡ raised_at block.now (Obj exception) (arisen exception machine.old)) }
    ensures writes { OnOk result (Adds writes.old writes.new
        (raise_events (Obj exception) block.now (arisen exception machine.old))) }
{
    let active = object_place(active(machine));
    arise_while(&mut machine.heap, active, exception);
    raise(machine, block, Value::Obj(exception), writes)
}

/// What `raise` alone comes to: the exception that is active lands again, or a RuntimeError arises
/// where none is (Language Reference 7.8).
pub fn raise_again(machine: &Machine) -> Result<Progress, Memory>
    ensures { IfOk result (λ p. p ≡ again_of (active_of machine.now)) }
{
    match active(machine) {
        Some(exception) => Ok(Progress::Leaves {
            how: Completion::Raise(exception),
        }),
        None => Ok(Progress::FailsSaying {
            class: RUNTIME_ERROR,
            text: Text::from_str(machine.alloc, "no active exception")?,
        }),
    }
}

/// The arguments of an exception with one or none.
fn arguments_of(alloc: Global, arg: Option<Value>) -> Result<Seq<Value>, Memory>
    ensures { IfOk result (λ args. args ≡ arguments_of arg) }
{
    match arg {
        Some(arg) => Seq::from_slice(alloc, &[arg]),
        None => Ok(Seq::new(alloc)),
    }
}

/// The end where the run goes on in place of an exception that left a block, if it is a
/// StopIteration and the block was to give the next item (Language Reference 8.3).
fn end_in(heap: &Heap, why: &Purpose, exception: Value) -> Option<Pc>
    ensures { result ≡ end_in why.now exception heap.now }
{
    match why {
        Purpose::Item { iterator: _, end } => {
            if is_stop(heap, exception) {
                Some(*end)
            } else {
                None
            }
        }
        _ => None,
    }
}

/// The two slots on top come off.
pub fn drop_two(slots: &mut Slots)
    ensures { slots.new ≡ drop 2 slots.old }
{
    match slots.pop() {
        Some(_) => {
            slots.pop();
        }
        None => {}
    }
}

/// The slots that stayed on while the block of an exit ran come off (Language Reference 8.5).
fn clear(machine: &mut Machine, why: &Purpose)
    ensures { machine.new ≡ behind_block why.now machine.old }
{
    match why {
        Purpose::Exit { completion: _ } => drop_two(&mut machine.here.slots),
        _ => {}
    }
}

/// An exception that left a block comes to the newest activation, unless it is the end.
pub fn leave(
    machine: &mut Machine,
    writes: &mut Writes,
    block: &BlockCode,
    why: &Purpose,
    exception: Value,
) -> Result<(), Memory>
    ensures machine { OnOk result (machine.new ≡ left_at block.now exception
        (end_in why.now exception machine.old.heap) (behind_block why.now machine.old)) }
    ensures writes { OnOk result (Adds writes.old writes.new (left_events exception block.now
        (end_in why.now exception machine.old.heap) (behind_block why.now machine.old))) }
{
    let end = end_in(&machine.heap, why, exception);
    clear(machine, why);
    match end {
        Some(end) => {
            go_to(machine, end);
            Ok(())
        }
        None => raise(machine, block, exception, writes),
    }
}

/// The same of one that was made, if there was room for it.
fn leave_made(
    machine: &mut Machine,
    writes: &mut Writes,
    blocks: &Blocks,
    block: &BlockCode,
    why: &Purpose,
    exception: Option<Value>,
) -> Result<Stride, Memory>
    ensures { IfOk result (λ r. Leaves blocks.now block.now why.now exception r machine.old
        writes.old machine.new writes.new) }
{
    match exception {
        Some(exception) => {
            leave(machine, writes, block, why, exception)?;
            Ok(Stride::Goes)
        }
        None => Ok(outside(machine, blocks, What::Heap)),
    }
}

/// An exception of a class leaves a block with its argument.
fn leave_with(
    machine: &mut Machine,
    writes: &mut Writes,
    blocks: &Blocks,
    block: &BlockCode,
    why: &Purpose,
    class: ObjId,
    arg: Option<Value>,
) -> Result<Stride, Memory>
    ensures { IfOk result (λ r. LeavesBy
        (allot (error class (arguments_of arg) None (active_of machine.old)) machine.old.heap)
        blocks.now block.now why.now r machine.old writes.old machine.new writes.new) }
{
    let args = arguments_of(machine.alloc, arg)?;
    let active = active(machine);
    let exception = error(machine.alloc, &machine.heap, class, args, None, active);
    let made = allot(&mut machine.heap, exception)?;
    leave_made(machine, writes, blocks, block, why, made)
}

/// An exception of a class leaves a block with a text.
pub fn leave_saying(
    machine: &mut Machine,
    writes: &mut Writes,
    blocks: &Blocks,
    block: &BlockCode,
    why: &Purpose,
    class: ObjId,
    text: Text,
) -> Result<Stride, Memory>
    ensures { IfOk result (λ r. LeavesBy
        (error_saying class text None (active_of machine.old) machine.old.heap)
        blocks.now block.now why.now r machine.old writes.old machine.new writes.new) }
{
    let active = active(machine);
    let made = error_saying(machine.alloc, &mut machine.heap, class, text, None, active)?;
    leave_made(machine, writes, blocks, block, why, made)
}

/// An exception of a class arises with its argument.
pub fn raise_with(
    machine: &mut Machine,
    writes: &mut Writes,
    blocks: &Blocks,
    block: &BlockCode,
    class: ObjId,
    arg: Option<Value>,
) -> Result<Stride, Memory>
    ensures { IfOk result (λ r. ArisesOf
        (allot (error class (arguments_of arg) None (active_of machine.old)) machine.old.heap)
        blocks.now block.now r machine.old writes.old machine.new writes.new) }
{
    leave_with(machine, writes, blocks, block, &Purpose::Result, class, arg)
}

/// An exception of a class arises with a text.
pub fn raise_saying(
    machine: &mut Machine,
    writes: &mut Writes,
    blocks: &Blocks,
    block: &BlockCode,
    class: ObjId,
    text: Text,
) -> Result<Stride, Memory>
    ensures { IfOk result (λ r. ArisesOf
        (error_saying class text None (active_of machine.old) machine.old.heap)
        blocks.now block.now r machine.old writes.old machine.new writes.new) }
{
    leave_saying(
        machine,
        writes,
        blocks,
        block,
        &Purpose::Result,
        class,
        text,
    )
}

/// Does what comes of an operation's answer that gives nothing to what a block was run for.
pub fn refuse(
    machine: &mut Machine,
    writes: &mut Writes,
    blocks: &Blocks,
    block: &BlockCode,
    why: &Purpose,
    answer: PrimAns,
) -> Result<Stride, Memory>
    ensures { IfOk result (λ r. Refuses blocks.now block.now why.now answer r machine.old
        writes.old machine.new writes.new) }
{
    match answer {
        PrimAns::Raise { class, arg } => {
            leave_with(machine, writes, blocks, block, why, class, arg)
        }
        PrimAns::Outside { what } => Ok(outside(machine, blocks, what)),
        PrimAns::Help {
            helper: _,
            operands: _,
            inverted: _,
        } => Ok(outside(machine, blocks, What::Helper)),
        PrimAns::Print { text } => {
            print(writes, text)?;
            Ok(outside(machine, blocks, What::Feature))
        }
        PrimAns::Value(_) | PrimAns::Values(_) | PrimAns::End => {
            Ok(outside(machine, blocks, What::Feature))
        }
    }
}
