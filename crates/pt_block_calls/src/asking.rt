//! Functions of the prelude that operations ask (Language Reference 3.3).
ghost use Rattle.std.specs.Prelude.{◌≡◌, List, IfOk, OnOk};
ghost use Rattle.pt_block_calls.specs.BlockCalls.{AsksFor, AsksHelper, AsksWith, CallsAnswered};
ghost use Rattle.pt_block_calls.specs.BlockCalls.{IsPlaceOf};
ghost use Rattle.pt_block_calls.specs.BlockCalls.{OperatesOrAsks, by_truth, given_for};
ghost use Rattle.pt_block_calls.specs.BlockCalls.{format_given, in_place_given};
ghost use Rattle.pt_frames.specs.Slots.{active_in};
ghost use Rattle.pt_frames.specs.declared.slot.Slot.{Slot};

use crate::blocks::{Given, call_function, function_of};
use crate::helpers::helper_arguments;
use pt_base::{Memory, ObjId, Seq, What};
use pt_bind::Args;
use pt_content::{Helper as Asked, Op, PrimAns};
use pt_frames::Slots;
use pt_function_rows::Blocks;
use pt_heap::{Heap, Value};
use pt_helper_objects::helper_place;
use pt_operators::{Progress, answered, prim};
use pt_prelude::{Helper, function_of as function_asked};
use std::alloc::Global;

/// The place of a function of the prelude, if the text has it.
#[tactic(auto, unfolding(crate::specs::BlockCalls::IsPlaceOf))]
fn place_of(helper: Helper) -> Option<ObjId>
    ensures { IsPlaceOf helper result }
{
    helper_place(helper)
}

/// Calls a function of the prelude, if a run has it.
#[tactic(auto, using(crate::proofs::AskLemmas::nowhere_asked, crate::proofs::AskLemmas::none_asked, crate::proofs::AskLemmas::function_asks))]
pub fn ask(
    alloc: Global,
    helper: Helper,
    args: &Args,
    given: Given,
    blocks: &Blocks,
    cells: &mut Seq<Option<Value>>,
    heap: &mut Heap,
) -> Result<Progress, Memory>
    ensures { IfOk result (λ p. (slots : List Slot)
        → AsksHelper helper blocks.now args.now given slots cells.old heap.old p cells.new heap.new) }
{
    let Some(place) = place_of(helper) else {
        return Ok(Progress::Outside { what: What::Helper });
    };
    let function = Value::Obj(place);
    if function_of(heap, function).is_none() {
        return Ok(Progress::Outside { what: What::Helper });
    }
    call_function(alloc, function, args, given, blocks, cells, heap)
}

/// Whether the opposite of what is given is asked for.
fn by_truth(inverted: bool) -> Given
    ensures { result ≡ by_truth inverted }
{
    if inverted {
        Given::Opposite
    } else {
        Given::Itself
    }
}

/// The text of a field is laid out by its spec.
fn format_given(operands: &[Value], inverted: bool) -> Given
    ensures { result ≡ format_given operands.now inverted }
{
    match operands {
        [_, spec, ..] => Given::Laid { spec: *spec },
        _ => by_truth(inverted),
    }
}

/// What `+=` gives is the list that it changed.
fn in_place_given(asked: Asked, operands: &[Value], inverted: bool) -> Given
    ensures { result ≡ in_place_given asked operands.now inverted }
{
    match asked {
        Asked::ExtendOf => match operands {
            [list, ..] => Given::Made { made: *list },
            _ => by_truth(inverted),
        },
        _ => by_truth(inverted),
    }
}

/// What an operation gives, by the value that the function gives that it asks.
fn given_for(op: Op, asked: Asked, operands: &[Value], inverted: bool) -> Given
    ensures { result ≡ given_for op asked operands.now inverted }
{
    match op {
        Op::Format(_) => format_given(operands, inverted),
        Op::InPlace(_) => in_place_given(asked, operands, inverted),
        Op::Truth | Op::Iter => Given::Itself,
        _ => by_truth(inverted),
    }
}

/// Calls the function that an operation asks.
#[tactic(auto, using(crate::proofs::AskLemmas::lacks_room))]
pub fn ask_with(
    alloc: Global,
    asked: Asked,
    operands: &[Value],
    given: Given,
    blocks: &Blocks,
    cells: &mut Seq<Option<Value>>,
    heap: &mut Heap,
) -> Result<Progress, Memory>
    ensures { IfOk result (λ p. (slots : List Slot)
        → AsksWith asked operands.now given blocks.now slots cells.old heap.old p cells.new heap.new) }
{
    match helper_arguments(alloc, asked, operands, heap)? {
        Some(args) => ask(
            alloc,
            function_asked(asked),
            &args,
            given,
            blocks,
            cells,
            heap,
        ),
        None => Ok(Progress::Outside { what: What::Heap }),
    }
}

/// What the answer of an operation comes to where a value is awaited: a function of the prelude that
/// it asks in place of the operation is called.
#[tactic(auto, using(crate::proofs::AskLemmas::value_answered))]
pub fn answer_or_ask(
    alloc: Global,
    op: Op,
    answer: PrimAns,
    blocks: &Blocks,
    cells: &mut Seq<Option<Value>>,
    slots: &mut Slots,
    heap: &mut Heap,
) -> Result<Progress, Memory>
    ensures row { IfOk result
        (λ p. CallsAnswered op answer blocks.now slots.old cells.old heap.old p slots.new cells.new
        heap.new) }
    ensures active { OnOk result (active_in slots.new ≡ active_in slots.old) }
{
    match answer {
        PrimAns::Help {
            helper,
            operands,
            inverted,
        } => {
            let operands = operands.as_slice();
            let given = given_for(op, helper, operands, inverted);
            ask_with(alloc, helper, operands, given, blocks, cells, heap)
        }
        answer => answered(answer, slots),
    }
}

/// An operation on values that were taken off the slots, or the function that it asks.
#[tactic(auto, using(crate::proofs::AskLemmas::operation_answered))]
pub fn operate_or_ask(
    alloc: Global,
    op: Op,
    operands: &[Value],
    blocks: &Blocks,
    cells: &mut Seq<Option<Value>>,
    slots: &mut Slots,
    heap: &mut Heap,
) -> Result<Progress, Memory>
    ensures row { IfOk result
        (λ p. OperatesOrAsks op operands.now blocks.now slots.old cells.old heap.old p slots.new
        cells.new heap.new) }
    ensures active { OnOk result (active_in slots.new ≡ active_in slots.old) }
{
    let answer = prim(alloc, op, operands, heap)?;
    answer_or_ask(alloc, op, answer, blocks, cells, slots, heap)
}

/// The answer of an operation, if that asks no function of the prelude; else what comes of the call
/// of that function for this purpose.
#[tactic(auto, using(crate::proofs::AskLemmas::answered_alone))]
pub fn answer_unless_asked(
    alloc: Global,
    op: Op,
    operands: &[Value],
    given: Given,
    blocks: &Blocks,
    cells: &mut Seq<Option<Value>>,
    heap: &mut Heap,
) -> Result<Result<PrimAns, Progress>, Memory>
    ensures { IfOk result
        (λ r. AsksFor op operands.now given blocks.now cells.old heap.old r cells.new heap.new) }
{
    match prim(alloc, op, operands, heap)? {
        PrimAns::Help {
            helper,
            operands,
            inverted: _,
        } => {
            let operands = operands.as_slice();
            Ok(Err(ask_with(alloc, helper, operands, given, blocks, cells, heap)?))
        }
        answer => Ok(Ok(answer)),
    }
}
