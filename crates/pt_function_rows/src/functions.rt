//! Functions are made (Language Reference 6.14, 8.7).
ghost use Rattle.std.specs.Prelude.{◌≡◌, length, IfOk, OnOk};
ghost use Rattle.pt_frames.specs.Slots.{active_in};
ghost use Rattle.pt_function_rows.specs.FunctionRows.{RowsFunction};
ghost use Rattle.pt_instr.specs.declared.Instr.TheVariants as instr;

use crate::arguments::bindings;
use crate::values::{take_cells, take_values};
use pt_base::{BlockId, Memory, Text, What};
use pt_frames::{Slot, Slots};
use pt_heap::{Function, Heap, Object};
use pt_instr::ListNo;
use pt_moves::{Progress, allot};
use std::alloc::Global;

/// Makes a function of a block with defaults of these names, which takes so many cells along. It is
/// hidden where the block that makes it is.
#[tactic(auto, using(crate::proofs::FunctionLemmas::made_row, crate::proofs::FunctionLemmas::full_row, crate::proofs::FunctionLemmas::lacks_cells, crate::proofs::FunctionLemmas::lacks_defaults, pt_moves::proofs::TakeLemmas::quiet_over))]
pub fn make_function(
    alloc: Global,
    block: BlockId,
    list: ListNo,
    names: &[Text],
    captures: usize,
    hidden: bool,
    slots: &mut Slots,
    heap: &mut Heap,
) -> Result<Progress, Memory>
    ensures row { IfOk result
        (λ p. RowsFunction names.now list.0 captures hidden block.0
        (instr.MakeFunction block (length names.now) list) slots.old heap.old p slots.new
        heap.new) }
    ensures active { OnOk result (active_in slots.new ≡ active_in slots.old) }
{
    let Some(cells) = take_cells(alloc, captures, slots)? else {
        return Ok(Progress::Lacks);
    };
    let Some(values) = take_values(alloc, names.len(), slots)? else {
        return Ok(Progress::Lacks);
    };
    let defaults = bindings(alloc, names, values.as_slice())?;
    let function = Object::Function(Function {
        block,
        hidden,
        defaults,
        cells,
    });
    match allot(heap, function)? {
        Some(value) => {
            slots.push(Slot::Value(value))?;
            Ok(Progress::Next)
        }
        None => Ok(Progress::Outside { what: What::Heap }),
    }
}
