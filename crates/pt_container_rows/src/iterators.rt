//! Iterators and their items, of instances by their methods (Language Reference 3.3.7, 8.3).
ghost use Rattle.std.specs.Prelude.{◌≡◌, IfOk, OnOk};
ghost use Rattle.pt_container_rows.specs.Answers.{over_item, over_iterator, progress_of_item};
ghost use Rattle.pt_frames.specs.Slots.{active_in};
ghost use Rattle.pt_instr.specs.declared.Instr.TheVariants as instr;
ghost use Rattle.pt_block_calls.specs.BlockCalls.{RowsOperation};
ghost use Rattle.pt_block_calls.specs.pt_operators.Operates.{value_given};

use crate::taking::take_iterator;
use pt_base::{Memory, Pc, Seq};
use pt_block_calls::{Blocks, Given, Outcome, Progress, answer_unless_asked, outcome_of, take_one};
use pt_content::{Op, PrimAns};
use pt_frames::{Slot, Slots};
use pt_heap::{Heap, Value};
use std::alloc::Global;

/// Puts an iterator on the slots, if there is one.
#[tactic(auto, using(crate::proofs::TakeLemmas::quiet_over_iterator))]
fn give_iterator(iterator: Option<Value>, slots: &mut Slots) -> Result<(), Memory>
    ensures slots { OnOk result (slots.new ≡ over_iterator iterator slots.old) }
    ensures active { OnOk result (active_in slots.new ≡ active_in slots.old) }
{
    match iterator {
        Some(iterator) => slots.push(Slot::Iter(iterator)),
        None => Ok(()),
    }
}

/// The iterator over a value (Language Reference 8.3).
#[tactic(auto, using(crate::proofs::IteratorLemmas::iter_answered, crate::proofs::IteratorLemmas::iter_asked, crate::proofs::IteratorLemmas::iter_lacks))]
pub fn iter(
    alloc: Global,
    blocks: &Blocks,
    cells: &mut Seq<Option<Value>>,
    slots: &mut Slots,
    heap: &mut Heap,
) -> Result<Progress, Memory>
    ensures row { IfOk result (λ p. RowsOperation instr.Iter blocks.now slots.old cells.old heap.old
        p slots.new cells.new heap.new) }
    ensures active { OnOk result (active_in slots.new ≡ active_in slots.old) }
{
    let Some(iterable) = take_one(slots) else {
        return Ok(Progress::Lacks);
    };
    let operands = [iterable];
    match answer_unless_asked(
        alloc,
        Op::Iter,
        &operands,
        Given::Iterate,
        blocks,
        cells,
        heap,
    )? {
        Ok(answer) => {
            let outcome = outcome_of(answer);
            give_iterator(outcome.value, slots)?;
            Ok(outcome.progress)
        }
        Err(asked) => Ok(asked),
    }
}

/// Puts an item on the slots above its iterator, if there is one.
#[tactic(auto, using(crate::proofs::TakeLemmas::quiet_over_item))]
fn give_item(iterator: Value, item: Option<Value>, slots: &mut Slots) -> Result<(), Memory>
    ensures slots { OnOk result (slots.new ≡ over_item iterator item slots.old) }
    ensures active { OnOk result (active_in slots.new ≡ active_in slots.old) }
{
    match item {
        Some(item) => {
            slots.push(Slot::Iter(iterator))?;
            slots.push(Slot::Value(item))
        }
        None => Ok(()),
    }
}

/// What an answer comes to where an item is awaited, or that there is none.
fn item_outcome(to: Pc, answer: PrimAns) -> Outcome
    ensures value { result.value ≡ value_given answer }
    ensures progress { result.progress ≡ progress_of_item to answer }
{
    match answer {
        PrimAns::End => Outcome {
            value: None,
            progress: Progress::Goto { pc: to },
        },
        answer => outcome_of(answer),
    }
}

/// The next item of the iterator on top, or a place to go to without that (Language Reference 8.3).
#[tactic(auto, using(crate::proofs::IteratorLemmas::next_answered, crate::proofs::IteratorLemmas::next_asked, crate::proofs::IteratorLemmas::next_lacks))]
pub fn next(
    alloc: Global,
    to: Pc,
    blocks: &Blocks,
    cells: &mut Seq<Option<Value>>,
    slots: &mut Slots,
    heap: &mut Heap,
) -> Result<Progress, Memory>
    ensures row { IfOk result (λ p. RowsOperation (instr.Next to) blocks.now slots.old cells.old
        heap.old p slots.new cells.new heap.new) }
    ensures active { OnOk result (active_in slots.new ≡ active_in slots.old) }
{
    let Some(iterator) = take_iterator(slots) else {
        return Ok(Progress::Lacks);
    };
    let given = Given::Item { iterator, end: to };
    match answer_unless_asked(alloc, Op::Next, &[iterator], given, blocks, cells, heap)? {
        Ok(answer) => {
            let outcome = item_outcome(to, answer);
            give_item(iterator, outcome.value, slots)?;
            Ok(outcome.progress)
        }
        Err(asked) => Ok(asked),
    }
}
