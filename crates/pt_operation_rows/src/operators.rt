//! Operators and comparisons (Language Reference 6.5 to 6.12, 7.2.1).
ghost use Rattle.std.specs.Prelude.{◌≡◌, IfOk, OnOk};
ghost use Rattle.pt_call_rows.specs.pt_class_rows.Calls.{running};
ghost use Rattle.pt_call_rows.specs.pt_block_calls.BlockCalls.{RowsOperation};
ghost use Rattle.pt_call_rows.specs.CallRows.{RowsCall};
ghost use Rattle.pt_frames.specs.Slots.{active_in};
ghost use Rattle.pt_instr.specs.declared.Instr.TheVariants as instr;
ghost use Rattle.pt_call_rows.specs.pt_operators.pt_moves.sem_rows.pt_host.Operators.{unary_name};

use crate::displays::gather;
use crate::special::special_or;
use pt_base::{BinOp, CompareOp, Memory, Seq, UnOp};
use pt_call_rows::{BlockFacts, Blocks, Names, Progress, take_one};
use pt_content::Op;
use pt_frames::Slots;
use pt_heap::{Heap, Value};
use std::alloc::Global;

/// The name of the method of a unary operator (Language Reference 3.3.8).
fn unary_name(op: UnOp) -> &'static str
    ensures { result.now ≡ unary_name op }
{
    match op {
        UnOp::Plus => "__pos__",
        UnOp::Minus => "__neg__",
        UnOp::Invert => "__invert__",
    }
}

/// A unary operator: `+`, `-`, `~` (Language Reference 6.6).
#[tactic(auto, using(crate::proofs::RowLemmas::unary_row, crate::proofs::RowLemmas::unary_lacks))]
pub fn unary(
    alloc: Global,
    op: UnOp,
    blocks: &Blocks,
    facts: &BlockFacts,
    locals: &Seq<Option<Value>>,
    numbers: &Seq<u32>,
    own: &Names,
    cells: &mut Seq<Option<Value>>,
    slots: &mut Slots,
    heap: &mut Heap,
) -> Result<Progress, Memory>
    ensures row { IfOk result
        (λ p. RowsCall blocks.now (running facts.now locals.now numbers.now own.now)
        (instr.Unary op) slots.old cells.old heap.old p slots.new cells.new heap.new) }
    ensures active { OnOk result (active_in slots.new ≡ active_in slots.old) }
{
    let Some(operand) = take_one(slots) else {
        return Ok(Progress::Lacks);
    };
    let name = unary_name(op);
    special_or(
        alloc,
        name,
        Op::Unary(op),
        operand,
        &[],
        &[operand],
        blocks,
        facts,
        locals,
        numbers,
        own,
        cells,
        slots,
        heap,
    )
}

/// `not` (Language Reference 6.11).
#[tactic(auto, using(crate::proofs::RowLemmas::not_row))]
pub fn not(
    alloc: Global,
    blocks: &Blocks,
    cells: &mut Seq<Option<Value>>,
    slots: &mut Slots,
    heap: &mut Heap,
) -> Result<Progress, Memory>
    ensures row { IfOk result (λ p. RowsOperation instr.Not blocks.now slots.old
        cells.old heap.old p slots.new cells.new heap.new) }
    ensures active { OnOk result (active_in slots.new ≡ active_in slots.old) }
{
    gather(alloc, Op::Not, 1, blocks, cells, slots, heap)
}

/// A binary operator (Language Reference 6.5, 6.7 to 6.9).
#[tactic(auto, using(crate::proofs::RowLemmas::binary_row))]
pub fn binary(
    alloc: Global,
    op: BinOp,
    blocks: &Blocks,
    cells: &mut Seq<Option<Value>>,
    slots: &mut Slots,
    heap: &mut Heap,
) -> Result<Progress, Memory>
    ensures row { IfOk result (λ p. RowsOperation (instr.Binary op) blocks.now slots.old
        cells.old heap.old p slots.new cells.new heap.new) }
    ensures active { OnOk result (active_in slots.new ≡ active_in slots.old) }
{
    gather(alloc, Op::Binary(op), 2, blocks, cells, slots, heap)
}

/// The operator of an augmented assignment (Language Reference 7.2.1).
#[tactic(auto, using(crate::proofs::RowLemmas::in_place_row))]
pub fn in_place(
    alloc: Global,
    op: BinOp,
    blocks: &Blocks,
    cells: &mut Seq<Option<Value>>,
    slots: &mut Slots,
    heap: &mut Heap,
) -> Result<Progress, Memory>
    ensures row { IfOk result (λ p. RowsOperation (instr.InPlace op) blocks.now slots.old
        cells.old heap.old p slots.new cells.new heap.new) }
    ensures active { OnOk result (active_in slots.new ≡ active_in slots.old) }
{
    gather(alloc, Op::InPlace(op), 2, blocks, cells, slots, heap)
}

/// A comparison (Language Reference 6.10).
#[tactic(auto, using(crate::proofs::RowLemmas::compare_row))]
pub fn compare(
    alloc: Global,
    op: CompareOp,
    blocks: &Blocks,
    cells: &mut Seq<Option<Value>>,
    slots: &mut Slots,
    heap: &mut Heap,
) -> Result<Progress, Memory>
    ensures row { IfOk result (λ p. RowsOperation (instr.Compare op) blocks.now slots.old
        cells.old heap.old p slots.new cells.new heap.new) }
    ensures active { OnOk result (active_in slots.new ≡ active_in slots.old) }
{
    gather(alloc, Op::Compare(op), 2, blocks, cells, slots, heap)
}
