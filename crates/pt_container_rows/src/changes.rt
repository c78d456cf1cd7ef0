//! Objects that change: items that are set and deleted, of instances by their methods, and what
//! comprehensions have so far (Language Reference 3.3.7, 6.2.4, 7.2, 7.5).
ghost use Rattle.std.specs.Prelude.{◌≡◌, IfOk, OnOk};
ghost use Rattle.pt_block_calls.specs.BlockCalls.{RowsOperation};
ghost use Rattle.pt_container_rows.specs.Rows.{Changes, ChangesBy};
ghost use Rattle.pt_frames.specs.Slots.{active_in};
ghost use Rattle.pt_instr.specs.declared.Instr.TheVariants as instr;

use crate::taking::value_down;
use pt_base::{Memory, Seq, What};
use pt_block_calls::{
    Blocks, Given, Progress, answer_unless_asked, call_function, method_of, outcome_of, take_one,
    take_three, take_two, with_first,
};
use pt_content::{Found, Op};
use pt_frames::Slots;
use pt_heap::{Heap, Value};
use std::alloc::Global;

/// An operation that changes an object, on values that were taken off the slots.
#[tactic(auto, using(crate::proofs::ChangeLemmas::changed_alone, crate::proofs::ChangeLemmas::changed_asked))]
fn change(
    alloc: Global,
    op: Op,
    operands: &[Value],
    blocks: &Blocks,
    cells: &mut Seq<Option<Value>>,
    heap: &mut Heap,
) -> Result<Progress, Memory>
    ensures { IfOk result
        (λ p. Changes op operands.now blocks.now cells.old heap.old p cells.new heap.new) }
{
    match answer_unless_asked(alloc, op, operands, Given::Discard, blocks, cells, heap)? {
        Ok(answer) => Ok(outcome_of(answer).progress),
        Err(asked) => Ok(asked),
    }
}

/// Calls the method of this name that an instance has, with these arguments, and drops what it gives.
/// What has none is operated on; a method that is no function isn't called yet.
#[tactic(auto, using(crate::proofs::ChangeLemmas::function_changes, crate::proofs::ChangeLemmas::other_changes, crate::proofs::ChangeLemmas::operation_changes))]
fn change_or(
    alloc: Global,
    name: &str,
    op: Op,
    receiver: Value,
    rest: &[Value],
    operands: &[Value],
    blocks: &Blocks,
    cells: &mut Seq<Option<Value>>,
    heap: &mut Heap,
) -> Result<Progress, Memory>
    ensures { IfOk result (λ p. ChangesBy name.now op receiver rest.now operands.now blocks.now
        cells.old heap.old p cells.new heap.new) }
{
    match method_of(alloc, heap, receiver, name)? {
        Some(Found::Bound(function)) => {
            let args = with_first(alloc, receiver, rest)?;
            call_function(alloc, function, &args, Given::Discard, blocks, cells, heap)
        }
        Some(_) => Ok(Progress::Outside {
            what: What::Feature,
        }),
        None => change(alloc, op, operands, blocks, cells, heap),
    }
}

/// An item of a container is set (Language Reference 7.2).
#[tactic(auto, using(crate::proofs::ChangeLemmas::set_item_row, crate::proofs::ChangeLemmas::set_item_lacks))]
pub fn set_item(
    alloc: Global,
    blocks: &Blocks,
    cells: &mut Seq<Option<Value>>,
    slots: &mut Slots,
    heap: &mut Heap,
) -> Result<Progress, Memory>
    ensures row { IfOk result (λ p. RowsOperation instr.SetItem blocks.now slots.old cells.old
        heap.old p slots.new cells.new heap.new) }
    ensures active { OnOk result (active_in slots.new ≡ active_in slots.old) }
{
    let Some(parts) = take_three(slots) else {
        return Ok(Progress::Lacks);
    };
    change_or(
        alloc,
        "__setitem__",
        Op::SetItem,
        parts.1.0,
        &[parts.1.1, parts.0],
        &[parts.0, parts.1.0, parts.1.1],
        blocks,
        cells,
        heap,
    )
}

/// An item of a container is deleted (Language Reference 7.5).
#[tactic(auto, using(crate::proofs::ChangeLemmas::delete_item_row, crate::proofs::ChangeLemmas::delete_item_lacks))]
pub fn delete_item(
    alloc: Global,
    blocks: &Blocks,
    cells: &mut Seq<Option<Value>>,
    slots: &mut Slots,
    heap: &mut Heap,
) -> Result<Progress, Memory>
    ensures row { IfOk result (λ p. RowsOperation instr.DelItem blocks.now slots.old cells.old
        heap.old p slots.new cells.new heap.new) }
    ensures active { OnOk result (active_in slots.new ≡ active_in slots.old) }
{
    let Some(pair) = take_two(slots) else {
        return Ok(Progress::Lacks);
    };
    change_or(
        alloc,
        "__delitem__",
        Op::DelItem,
        pair.0,
        &[pair.1],
        &[pair.0, pair.1],
        blocks,
        cells,
        heap,
    )
}

/// The list so many slots down gets an item more (Language Reference 6.2.4).
#[tactic(auto, using(crate::proofs::ChangeLemmas::list_add_row, crate::proofs::ChangeLemmas::list_add_lacks, crate::proofs::ChangeLemmas::list_add_lacks_list))]
pub fn add_to_list(
    alloc: Global,
    count: u32,
    blocks: &Blocks,
    cells: &mut Seq<Option<Value>>,
    slots: &mut Slots,
    heap: &mut Heap,
) -> Result<Progress, Memory>
    ensures row { IfOk result (λ p. RowsOperation (instr.ListAdd count) blocks.now slots.old
        cells.old heap.old p slots.new cells.new heap.new) }
    ensures active { OnOk result (active_in slots.new ≡ active_in slots.old) }
{
    let Some(item) = take_one(slots) else {
        return Ok(Progress::Lacks);
    };
    match value_down(slots, count) {
        Some(made) => change(alloc, Op::ListAdd, &[made, item], blocks, cells, heap),
        None => Ok(Progress::Lacks),
    }
}

/// The set so many slots down gets an item more (Language Reference 6.2.4).
#[tactic(auto, using(crate::proofs::ChangeLemmas::set_add_row, crate::proofs::ChangeLemmas::set_add_lacks, crate::proofs::ChangeLemmas::set_add_lacks_set))]
pub fn add_to_set(
    alloc: Global,
    count: u32,
    blocks: &Blocks,
    cells: &mut Seq<Option<Value>>,
    slots: &mut Slots,
    heap: &mut Heap,
) -> Result<Progress, Memory>
    ensures row { IfOk result (λ p. RowsOperation (instr.SetAdd count) blocks.now slots.old
        cells.old heap.old p slots.new cells.new heap.new) }
    ensures active { OnOk result (active_in slots.new ≡ active_in slots.old) }
{
    let Some(item) = take_one(slots) else {
        return Ok(Progress::Lacks);
    };
    match value_down(slots, count) {
        Some(made) => change(alloc, Op::SetAdd, &[made, item], blocks, cells, heap),
        None => Ok(Progress::Lacks),
    }
}

/// The dictionary so many slots down gets a value behind a key (Language Reference 6.2.4).
#[tactic(auto, using(crate::proofs::ChangeLemmas::dict_add_row, crate::proofs::ChangeLemmas::dict_add_lacks, crate::proofs::ChangeLemmas::dict_add_lacks_dict))]
pub fn add_to_dict(
    alloc: Global,
    count: u32,
    blocks: &Blocks,
    cells: &mut Seq<Option<Value>>,
    slots: &mut Slots,
    heap: &mut Heap,
) -> Result<Progress, Memory>
    ensures row { IfOk result (λ p. RowsOperation (instr.DictAdd count) blocks.now slots.old
        cells.old heap.old p slots.new cells.new heap.new) }
    ensures active { OnOk result (active_in slots.new ≡ active_in slots.old) }
{
    let Some(entry) = take_two(slots) else {
        return Ok(Progress::Lacks);
    };
    match value_down(slots, count) {
        Some(made) => {
            let operands = [made, entry.0, entry.1];
            change(alloc, Op::DictAdd, &operands, blocks, cells, heap)
        }
        None => Ok(Progress::Lacks),
    }
}
