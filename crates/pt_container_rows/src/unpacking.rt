//! As many items of a value as there are targets (Language Reference 7.2).
ghost use Rattle.std.specs.Prelude.{◌≡◌, ◌++◌, map, IfOk, OnOk};
ghost use Rattle.pt_block_calls.specs.BlockCalls.{RowsOperation};
ghost use Rattle.pt_block_calls.specs.pt_operators.pt_moves.sem_rows.heap_rows.Told.{row_count};
ghost use Rattle.pt_block_calls.specs.pt_operators.pt_moves.sem_rows.heap_rows.Told.{unpacks};
ghost use Rattle.pt_container_rows.specs.Answers.{over_row, progress_of_row};
ghost use Rattle.pt_container_rows.specs.Rows.{Unpacks};
ghost use Rattle.pt_frames.specs.Slots.{active_in};
ghost use Rattle.pt_frames.specs.declared.slot.Slot.TheVariants as slot;
ghost use Rattle.pt_instr.specs.declared.Instr.TheVariants as instr;

use pt_base::{Memory, Seq, What};
use pt_block_calls::{Blocks, Given, Progress, answer_unless_asked, take_one};
use pt_content::{Op, PrimAns};
use pt_frames::{Slot, Slots};
use pt_heap::{Heap, Value};
use std::alloc::Global;

/// Puts values on the slots, the first one on top.
#[tactic(auto, using(crate::proofs::UnpackLemmas::one_over, crate::proofs::UnpackLemmas::all_over, crate::proofs::UnpackLemmas::none_over))]
fn push_values(values: &[Value], slots: &mut Slots) -> Result<(), Memory>
    ensures { OnOk result (slots.new ≡ map slot.Value values.now ++ slots.old) }
{
    let count = values.len();
    for at in 0..count {
        slots.push(Slot::Value(values[count - 1 - at]))?;
    }
    Ok(())
}

/// Gives the values that an operation answers, if it answers so many.
#[tactic(auto, using(crate::proofs::UnpackLemmas::quiet_over_values))]
fn give_row(answer: PrimAns, count: usize, slots: &mut Slots) -> Result<Progress, Memory>
    ensures progress { IfOk result (λ p. p ≡ progress_of_row count answer) }
    ensures slots { OnOk result (slots.new ≡ over_row count answer slots.old) }
    ensures active { OnOk result (active_in slots.new ≡ active_in slots.old) }
{
    match answer {
        PrimAns::Values(values) => {
            if values.len() != count {
                return Ok(Progress::Outside {
                    what: What::Feature,
                });
            }
            push_values(values.as_slice(), slots)?;
            Ok(Progress::Next)
        }
        PrimAns::Raise { class, arg } => Ok(Progress::Fails { class, arg }),
        PrimAns::Outside { what } => Ok(Progress::Outside { what }),
        PrimAns::Help {
            helper: _,
            operands: _,
            inverted: _,
        } => Ok(Progress::Outside { what: What::Helper }),
        PrimAns::Value(_) | PrimAns::End | PrimAns::Print { text: _ } => Ok(Progress::Outside {
            what: What::Feature,
        }),
    }
}

/// The operation that gives so many values, or so many before a list and behind it.
fn operation(before: u32, after: Option<u32>) -> Op
    ensures { result ≡ unpacks before after }
{
    match after {
        None => Op::Unpack { count: before },
        Some(after) => Op::UnpackStar { before, after },
    }
}

/// How many values it gives.
fn row_count(before: u32, after: Option<u32>) -> usize
    ensures { result ≡ row_count before after }
{
    match after {
        None => before as usize,
        Some(after) => before as usize + 1 + after as usize,
    }
}

/// The value on top is unpacked.
#[tactic(auto, using(crate::proofs::UnpackLemmas::unpacks_alone, crate::proofs::UnpackLemmas::unpacks_asked, crate::proofs::UnpackLemmas::unpacks_nothing))]
fn unpack_by(
    alloc: Global,
    before: u32,
    after: Option<u32>,
    blocks: &Blocks,
    cells: &mut Seq<Option<Value>>,
    slots: &mut Slots,
    heap: &mut Heap,
) -> Result<Progress, Memory>
    ensures row { IfOk result (λ p. Unpacks before after blocks.now slots.old cells.old heap.old p
        slots.new cells.new heap.new) }
    ensures active { OnOk result (active_in slots.new ≡ active_in slots.old) }
{
    let Some(iterable) = take_one(slots) else {
        return Ok(Progress::Lacks);
    };
    let op = operation(before, after);
    let given = Given::Unpack { before, after };
    match answer_unless_asked(alloc, op, &[iterable], given, blocks, cells, heap)? {
        Ok(answer) => give_row(answer, row_count(before, after), slots),
        Err(asked) => Ok(asked),
    }
}

/// So many items of a value, the first on top.
#[tactic(auto, using(crate::proofs::UnpackLemmas::unpack_row))]
pub fn unpack(
    alloc: Global,
    count: u32,
    blocks: &Blocks,
    cells: &mut Seq<Option<Value>>,
    slots: &mut Slots,
    heap: &mut Heap,
) -> Result<Progress, Memory>
    ensures row { IfOk result (λ p. RowsOperation (instr.Unpack count) blocks.now slots.old
        cells.old heap.old p slots.new cells.new heap.new) }
    ensures active { OnOk result (active_in slots.new ≡ active_in slots.old) }
{
    unpack_by(alloc, count, None, blocks, cells, slots, heap)
}

/// So many first items of a value, a list, and so many last ones, the first on top.
#[tactic(auto, using(crate::proofs::UnpackLemmas::unpack_star_row))]
pub fn unpack_star(
    alloc: Global,
    before: u32,
    after: u32,
    blocks: &Blocks,
    cells: &mut Seq<Option<Value>>,
    slots: &mut Slots,
    heap: &mut Heap,
) -> Result<Progress, Memory>
    ensures row { IfOk result (λ p. RowsOperation (instr.UnpackStar before after) blocks.now
        slots.old cells.old heap.old p slots.new cells.new heap.new) }
    ensures active { OnOk result (active_in slots.new ≡ active_in slots.old) }
{
    unpack_by(alloc, before, Some(after), blocks, cells, slots, heap)
}
