//! Operations that an instance of a script's class has a method for (Language Reference 3.3).
ghost use Rattle.std.specs.Prelude.{◌≡◌, IfOk, OnOk};
ghost use Rattle.pt_call_rows.specs.pt_class_rows.Calls.{running};
ghost use Rattle.pt_frames.specs.Slots.{active_in};
ghost use Rattle.pt_operation_rows.specs.OperationRows.{AsksSpecial};

use pt_base::{Memory, Seq};
use pt_call_rows::{
    BlockFacts, Blocks, Given, Names, Progress, call_function, call_value, method_of,
    operate_or_ask, with_first, without_names,
};
use pt_content::{Found, Op};
use pt_frames::Slots;
use pt_heap::{Heap, Value};
use std::alloc::Global;

/// Calls the method of this name that an instance has, with these arguments. What has none is
/// operated on.
#[tactic(auto, using(crate::proofs::SpecialLemmas::function_called, crate::proofs::SpecialLemmas::value_called, crate::proofs::SpecialLemmas::operated))]
pub(crate) fn special_or(
    alloc: Global,
    name: &str,
    op: Op,
    receiver: Value,
    rest: &[Value],
    operands: &[Value],
    blocks: &Blocks,
    facts: &BlockFacts,
    locals: &Seq<Option<Value>>,
    numbers: &Seq<u32>,
    own: &Names,
    cells: &mut Seq<Option<Value>>,
    slots: &mut Slots,
    heap: &mut Heap,
) -> Result<Progress, Memory>
    ensures row { IfOk result
        (λ p. AsksSpecial name.now op receiver rest.now operands.now blocks.now
        (running facts.now locals.now numbers.now own.now) slots.old cells.old heap.old p slots.new
        cells.new heap.new) }
    ensures active { OnOk result (active_in slots.new ≡ active_in slots.old) }
{
    match method_of(alloc, heap, receiver, name)? {
        Some(Found::Bound(function)) => {
            let args = with_first(alloc, receiver, rest)?;
            call_function(alloc, function, &args, Given::Itself, blocks, cells, heap)
        }
        Some(Found::Plain(callee)) => {
            let args = without_names(alloc, rest)?;
            call_value(
                alloc, callee, &args, blocks, facts, locals, numbers, own, cells, slots, heap,
            )
        }
        _ => operate_or_ask(alloc, op, operands, blocks, cells, slots, heap),
    }
}
