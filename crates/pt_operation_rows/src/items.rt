//! Items of containers, and of instances by their method (Language Reference 3.3.7, 6.3.2).
ghost use Rattle.std.specs.Prelude.{◌≡◌, IfOk, OnOk};
ghost use Rattle.pt_call_rows.specs.CallRows.{RowsCall};
ghost use Rattle.pt_call_rows.specs.pt_class_rows.Calls.{running};
ghost use Rattle.pt_frames.specs.Slots.{active_in};
ghost use Rattle.pt_instr.specs.declared.Instr.TheVariants as instr;

use crate::special::special_or;
use pt_base::{Memory, Seq};
use pt_call_rows::{BlockFacts, Blocks, Names, Progress, take_two};
use pt_content::Op;
use pt_frames::Slots;
use pt_heap::{Heap, Value};
use std::alloc::Global;

/// An item of a container (Language Reference 6.3.2).
#[tactic(auto, using(crate::proofs::RowLemmas::item_row, crate::proofs::RowLemmas::item_lacks))]
pub fn item(
    alloc: Global,
    blocks: &Blocks,
    facts: &BlockFacts,
    locals: &Seq<Option<Value>>,
    numbers: &Seq<u32>,
    own: &Names,
    cells: &mut Seq<Option<Value>>,
    slots: &mut Slots,
    heap: &mut Heap,
) -> Result<Progress, Memory>
    ensures row { IfOk result
        (λ p. RowsCall blocks.now (running facts.now locals.now numbers.now own.now) instr.Item
        slots.old cells.old heap.old p slots.new cells.new heap.new) }
    ensures active { OnOk result (active_in slots.new ≡ active_in slots.old) }
{
    let Some(pair) = take_two(slots) else {
        return Ok(Progress::Lacks);
    };
    special_or(
        alloc,
        "__getitem__",
        Op::Item,
        pair.0,
        &[pair.1],
        &[pair.0, pair.1],
        blocks,
        facts,
        locals,
        numbers,
        own,
        cells,
        slots,
        heap,
    )
}
