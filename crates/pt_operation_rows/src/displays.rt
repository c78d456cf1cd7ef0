//! Operations on so many values: displays, f-strings, slices and arguments that are spread (Language
//! Reference 2.4.3, 6.2.5 to 6.2.7, 6.3.3, 6.3.4, 6.15).
ghost use Rattle.std.specs.Prelude.{◌≡◌, IfOk, OnOk};
ghost use Rattle.pt_call_rows.specs.pt_block_calls.BlockCalls.{RowsOperation};
ghost use Rattle.pt_operation_rows.specs.OperationRows.{Gathers};
ghost use Rattle.pt_frames.specs.Slots.{active_in};
ghost use Rattle.pt_instr.specs.declared.Instr.TheVariants as instr;
ghost use Rattle.sem_code.specs.slots.Instructions.{conversion_of};

use pt_base::{Memory, Seq};
use pt_call_rows::{Blocks, Progress, operate_or_ask, take_values};
use pt_content::Op;
use pt_frames::Slots;
use pt_heap::{Heap, Value};
use pt_instr::Conversion as Formatting;
use pt_tree::Conversion;
use std::alloc::Global;

/// An operation on so many values gives a value.
#[tactic(auto, using(crate::proofs::GatherLemmas::gathered, crate::proofs::GatherLemmas::gathers_less))]
pub(crate) fn gather(
    alloc: Global,
    op: Op,
    count: usize,
    blocks: &Blocks,
    cells: &mut Seq<Option<Value>>,
    slots: &mut Slots,
    heap: &mut Heap,
) -> Result<Progress, Memory>
    ensures row { IfOk result (λ p. Gathers op count blocks.now slots.old cells.old heap.old p
        slots.new cells.new heap.new) }
    ensures active { OnOk result (active_in slots.new ≡ active_in slots.old) }
{
    match take_values(alloc, count, slots)? {
        Some(values) => { operate_or_ask(alloc, op, values.as_slice(), blocks, cells, slots, heap) }
        None => Ok(Progress::Lacks),
    }
}

/// A tuple of so many items (Language Reference 6.15).
#[tactic(auto, using(crate::proofs::RowLemmas::tuple_row))]
pub fn tuple(
    alloc: Global,
    count: u32,
    blocks: &Blocks,
    cells: &mut Seq<Option<Value>>,
    slots: &mut Slots,
    heap: &mut Heap,
) -> Result<Progress, Memory>
    ensures row { IfOk result (λ p. RowsOperation (instr.Tuple count) blocks.now slots.old
        cells.old heap.old p slots.new cells.new heap.new) }
    ensures active { OnOk result (active_in slots.new ≡ active_in slots.old) }
{
    gather(alloc, Op::Tuple, count as usize, blocks, cells, slots, heap)
}

/// A list of so many items (Language Reference 6.2.5).
#[tactic(auto, using(crate::proofs::RowLemmas::list_row))]
pub fn list(
    alloc: Global,
    count: u32,
    blocks: &Blocks,
    cells: &mut Seq<Option<Value>>,
    slots: &mut Slots,
    heap: &mut Heap,
) -> Result<Progress, Memory>
    ensures row { IfOk result (λ p. RowsOperation (instr.List count) blocks.now slots.old
        cells.old heap.old p slots.new cells.new heap.new) }
    ensures active { OnOk result (active_in slots.new ≡ active_in slots.old) }
{
    gather(alloc, Op::List, count as usize, blocks, cells, slots, heap)
}

/// A set of so many items (Language Reference 6.2.6).
#[tactic(auto, using(crate::proofs::RowLemmas::set_row))]
pub fn set(
    alloc: Global,
    count: u32,
    blocks: &Blocks,
    cells: &mut Seq<Option<Value>>,
    slots: &mut Slots,
    heap: &mut Heap,
) -> Result<Progress, Memory>
    ensures row { IfOk result (λ p. RowsOperation (instr.Set count) blocks.now slots.old
        cells.old heap.old p slots.new cells.new heap.new) }
    ensures active { OnOk result (active_in slots.new ≡ active_in slots.old) }
{
    gather(alloc, Op::Set, count as usize, blocks, cells, slots, heap)
}

/// A dictionary of so many keys, each with its value behind it (Language Reference 6.2.7).
#[tactic(auto, using(crate::proofs::RowLemmas::dict_row))]
pub fn dict(
    alloc: Global,
    count: u32,
    blocks: &Blocks,
    cells: &mut Seq<Option<Value>>,
    slots: &mut Slots,
    heap: &mut Heap,
) -> Result<Progress, Memory>
    ensures row { IfOk result (λ p. RowsOperation (instr.Dict count) blocks.now slots.old
        cells.old heap.old p slots.new cells.new heap.new) }
    ensures active { OnOk result (active_in slots.new ≡ active_in slots.old) }
{
    let count = count as usize;
    gather(alloc, Op::Dict, count + count, blocks, cells, slots, heap)
}

/// The text of an f-string, of those of its parts (Language Reference 2.4.3).
#[tactic(auto, using(crate::proofs::RowLemmas::join_row))]
pub fn join(
    alloc: Global,
    count: u32,
    blocks: &Blocks,
    cells: &mut Seq<Option<Value>>,
    slots: &mut Slots,
    heap: &mut Heap,
) -> Result<Progress, Memory>
    ensures row { IfOk result (λ p. RowsOperation (instr.Join count) blocks.now slots.old
        cells.old heap.old p slots.new cells.new heap.new) }
    ensures active { OnOk result (active_in slots.new ≡ active_in slots.old) }
{
    gather(alloc, Op::Join, count as usize, blocks, cells, slots, heap)
}

/// A slice of its start, stop and step (Language Reference 6.3.3).
#[tactic(auto, using(crate::proofs::RowLemmas::slice_row))]
pub fn slice(
    alloc: Global,
    blocks: &Blocks,
    cells: &mut Seq<Option<Value>>,
    slots: &mut Slots,
    heap: &mut Heap,
) -> Result<Progress, Memory>
    ensures row { IfOk result (λ p. RowsOperation instr.Slice blocks.now slots.old
        cells.old heap.old p slots.new cells.new heap.new) }
    ensures active { OnOk result (active_in slots.new ≡ active_in slots.old) }
{
    gather(alloc, Op::Slice, 3, blocks, cells, slots, heap)
}

/// The tuple of the arguments that `*a` stands for (Language Reference 6.3.4).
#[tactic(auto, using(crate::proofs::RowLemmas::spread_row))]
pub fn spread(
    alloc: Global,
    blocks: &Blocks,
    cells: &mut Seq<Option<Value>>,
    slots: &mut Slots,
    heap: &mut Heap,
) -> Result<Progress, Memory>
    ensures row { IfOk result (λ p. RowsOperation instr.Spread blocks.now slots.old
        cells.old heap.old p slots.new cells.new heap.new) }
    ensures active { OnOk result (active_in slots.new ≡ active_in slots.old) }
{
    gather(alloc, Op::SpreadOut, 1, blocks, cells, slots, heap)
}

/// The dictionary of the arguments that `**a` stands for (Language Reference 6.3.4).
#[tactic(auto, using(crate::proofs::RowLemmas::spread_named_row))]
pub fn spread_named(
    alloc: Global,
    blocks: &Blocks,
    cells: &mut Seq<Option<Value>>,
    slots: &mut Slots,
    heap: &mut Heap,
) -> Result<Progress, Memory>
    ensures row { IfOk result (λ p. RowsOperation instr.SpreadMap blocks.now slots.old
        cells.old heap.old p slots.new cells.new heap.new) }
    ensures active { OnOk result (active_in slots.new ≡ active_in slots.old) }
{
    gather(alloc, Op::SpreadNamed, 1, blocks, cells, slots, heap)
}

/// How a value is made into a text before it is formatted.
fn conversion_of(conversion: Formatting) -> Option<Conversion>
    ensures { result ≡ conversion_of conversion }
{
    match conversion {
        Formatting::Plain => None,
        Formatting::Str => Some(Conversion::Str),
        Formatting::Repr => Some(Conversion::Repr),
    }
}

/// The text of a value by its spec, or None where it has none (Language Reference 2.4.3).
#[tactic(auto, using(crate::proofs::RowLemmas::format_row))]
pub fn format(
    alloc: Global,
    conversion: Formatting,
    blocks: &Blocks,
    cells: &mut Seq<Option<Value>>,
    slots: &mut Slots,
    heap: &mut Heap,
) -> Result<Progress, Memory>
    ensures row { IfOk result (λ p. RowsOperation (instr.Format conversion) blocks.now slots.old
        cells.old heap.old p slots.new cells.new heap.new) }
    ensures active { OnOk result (active_in slots.new ≡ active_in slots.old) }
{
    let op = Op::Format(conversion_of(conversion));
    gather(alloc, op, 2, blocks, cells, slots, heap)
}
