//! The body of a class ends (Language Reference 8.8).
ghost use Rattle.std.specs.Prelude.{◌≡◌, IfOk};
ghost use Rattle.pt_transfers.specs.pt_machine_state.Applies.{class_of};
ghost use Rattle.pt_transfers.specs.pt_machine_state.Changes.{with_class};
ghost use Rattle.pt_progress.specs.Making.{EndsClass, IsMade};

use crate::failing::{outside, raise_saying};
use pt_base::{Dup, Memory, ObjId, Pc, Text, What};
use pt_frames::Activation;
use pt_heap::{Heap, Object, Value};
use pt_transfers::{BlockCode, Blocks, Machine, Stride, Writes, give_back};
use sem_rows::{Base, TYPE_ERROR, allot, base_of, class_object};
use std::alloc::Global;

/// The class of a cell stands in it.
fn fill(machine: &mut Machine, cell: Option<u32>, class: Value)
    ensures { machine.new ≡ with_class cell class machine.old }
{
    let Some(cell) = cell else {
        return;
    };
    let at = cell as usize;
    if at < machine.frames.cells.len() {
        machine.frames.cells.set(at, Some(class));
    }
}

/// A class on a base, of the names of its body (Language Reference 8.8). They are to go into this
/// heap.
fn class_of(
    alloc: Global,
    heap: &Heap,
    blocks: &Blocks,
    closed: &Activation,
    base: ObjId,
) -> Result<Object, Memory>
    ensures { IfOk result (λ object. object ≡ class_of blocks.now closed.now base) }
{
    let name = blocks.at(closed.block, closed.hidden).name.dup(alloc)?;
    let bound = closed.names.bindings(alloc)?;
    class_object(alloc, heap, name, base, bound.as_slice())
}

/// A class on a base is made of the names of its body, if there is room for it.
#[tactic(auto, using(crate::proofs::ClassLemmas::class_made, crate::proofs::ClassLemmas::class_full))]
fn make_class(
    machine: &mut Machine,
    blocks: &Blocks,
    next: Pc,
    closed: &Activation,
    base: ObjId,
    cell: Option<u32>,
) -> Result<Stride, Memory>
    ensures { IfOk result (λ r. IsMade blocks.now next closed.now base cell r machine.old
        machine.new) }
{
    let object = class_of(machine.alloc, &machine.heap, blocks, closed, base)?;
    match allot(&mut machine.heap, object)? {
        Some(class) => {
            fill(machine, cell, class);
            give_back(machine, next, class)?;
            Ok(Stride::Goes)
        }
        None => Ok(outside(machine, blocks, What::Heap)),
    }
}

/// The body of a class came to its end.
pub fn end_class(
    machine: &mut Machine,
    writes: &mut Writes,
    blocks: &Blocks,
    caller: &BlockCode,
    next: Pc,
    closed: &Activation,
    base: Value,
    cell: Option<u32>,
) -> Result<Stride, Memory>
    ensures { IfOk result (λ r. EndsClass blocks.now caller.now next closed.now base cell r
        machine.old writes.old machine.new writes.new) }
{
    match base_of(&machine.heap, base) {
        Base::On(base) => make_class(machine, blocks, next, closed, base, cell),
        Base::Unavailable => Ok(outside(machine, blocks, What::Feature)),
        Base::NoBase => {
            let text = Text::from_str(machine.alloc, "bad argument")?;
            raise_saying(machine, writes, blocks, caller, TYPE_ERROR, text)
        }
    }
}
