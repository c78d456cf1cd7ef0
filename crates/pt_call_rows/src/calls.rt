//! Calls (Language Reference 6.3.4).
ghost use Rattle.std.specs.Prelude.{◌≡◌, slice_get, None, IfOk, OnOk};
ghost use Rattle.pt_block_calls.specs.BlockCalls.{function_of};
ghost use Rattle.pt_block_calls.specs.pt_operators.pt_moves.sem_rows.pt_host.Attributes.{bound_of};
ghost use Rattle.pt_call_rows.specs.CallRows.{CallsAnyClass, CallsBuiltin, CallsMethod, CallsOnce};
ghost use Rattle.pt_call_rows.specs.CallRows.{CallsOperation, CallsOtherClass, CallsScripted, CallsValue};
ghost use Rattle.pt_call_rows.specs.CallRows.{MakesException, RowsCall, RowsNamedCall};
ghost use Rattle.pt_call_rows.specs.CallRows.{builtin_of, class_id_of, exception_at};
ghost use Rattle.pt_call_rows.specs.CallRows.{function_by, is_setattr, last_callee};
ghost use Rattle.pt_call_rows.specs.CallRows.{method_by, method_of, next_callee, not_callable, too_deep};
ghost use Rattle.pt_block_calls.specs.pt_class_rows.Calls.{running};
ghost use Rattle.pt_content.specs.pt_attrs.Store.{is_scripted};
ghost use Rattle.pt_content.specs.pt_attrs.pt_dicts.Chain.{class_in};
ghost use Rattle.pt_frames.specs.Slots.{active_in};
ghost use Rattle.pt_instr.specs.declared.Instr.TheVariants as instr;

use crate::helpers::helper_of_class;
use crate::operands::{method_operands, operands_of};
use crate::roles::{are_arguments, arguments};
use pt_base::{Memory, ObjId, Seq, Text, What};
use pt_bind::Args;
use pt_block_calls::{
    BASE_EXCEPTION, BlockFacts, Blocks, Given, Instance, Names, Progress, TYPE_ERROR, ask,
    bound_of, call_function, call_setattr, derives, error, function_of, make_instance, make_object,
    make_super, method_of as special_of, named_last, not_callable_text, of_method_number,
    operate_or_ask, place, take_one, take_values, with_receiver,
};
use pt_content::{
    Found, Function as Builtin, MethodName, Op, RECURSION_ERROR, class_at, class_name, object_at,
    of_class, of_function,
};
use pt_frames::Slots;
use pt_heap::{Heap, Object, Value};
use pt_instr::ListNo;
use std::alloc::Global;

/// It is no function.
fn not_callable(alloc: Global, heap: &Heap, value: Value) -> Result<Progress, Memory>
    ensures { IfOk result (λ p. p ≡ not_callable heap.now value) }
{
    let text = not_callable_text(alloc, class_name(heap, value))?;
    Ok(Progress::FailsSaying {
        class: TYPE_ERROR,
        text,
    })
}

/// Whether a class is a script's.
fn is_scripted(heap: &Heap, class: ObjId) -> bool
    ensures { result ≡ is_scripted (class_in (slice_get heap.now class.0)) }
{
    match class_at(heap, class) {
        Some(class) => class.scripted,
        None => false,
    }
}

/// The function of this number, if it is no method of a value.
fn function_by(number: u32, receiver: Option<Value>) -> Option<Option<Builtin>>
    ensures { result ≡ function_by number receiver }
{
    match receiver {
        Some(_) => None,
        None => Some(of_function(number)),
    }
}

/// What a value does where it is called, if it is a builtin function: an operation on values, or None
/// where it is none.
fn builtin_of(heap: &Heap, value: Value) -> Option<Option<Builtin>>
    ensures { result ≡ builtin_of heap.now value }
{
    match value {
        Value::Obj(id) => match object_at(heap, id) {
            Some(Object::Builtin(builtin)) => function_by(builtin.number, builtin.receiver),
            _ => None,
        },
        _ => None,
    }
}

/// The place of the class that a value is, if it is one.
fn class_id_of(heap: &Heap, value: Value) -> Option<ObjId>
    ensures { result ≡ class_id_of heap.now value }
{
    match value {
        Value::Obj(id) => match object_at(heap, id) {
            Some(Object::Class(_)) => Some(id),
            _ => None,
        },
        _ => None,
    }
}

/// The method of this number with the value that it is bound to, if there is one.
fn method_by(number: u32, receiver: Option<Value>) -> Option<(Option<MethodName>, Value)>
    ensures { result ≡ method_by number receiver }
{
    match receiver {
        Some(receiver) => Some((of_method_number(number), receiver)),
        None => None,
    }
}

/// The method of a builtin value that a value is, with the value that it is bound to.
fn method_of(heap: &Heap, value: Value) -> Option<(Option<MethodName>, Value)>
    ensures { result ≡ method_of heap.now value }
{
    match value {
        Value::Obj(id) => match object_at(heap, id) {
            Some(Object::Builtin(builtin)) => method_by(builtin.number, builtin.receiver),
            _ => None,
        },
        _ => None,
    }
}

/// Calls a builtin by its operands, which but for `print` takes arguments without names.
#[tactic(auto, using(crate::proofs::CallLemmas::operated, crate::proofs::CallLemmas::misnamed))]
fn operate(
    alloc: Global,
    function: Builtin,
    args: &Args,
    blocks: &Blocks,
    cells: &mut Seq<Option<Value>>,
    slots: &mut Slots,
    heap: &mut Heap,
) -> Result<Progress, Memory>
    ensures row { IfOk result
        (λ p. CallsOperation function args.now blocks.now slots.old cells.old heap.old p slots.new
        cells.new heap.new) }
    ensures active { OnOk result (active_in slots.new ≡ active_in slots.old) }
{
    let Some(operands) = operands_of(alloc, function, args)? else {
        return Ok(Progress::Outside {
            what: What::Feature,
        });
    };
    let op = Op::Call(function);
    operate_or_ask(alloc, op, operands.as_slice(), blocks, cells, slots, heap)
}

/// Whether it is `setattr`, which is no operation on values.
fn is_setattr(function: Builtin) -> bool
    ensures { result ≡ is_setattr function }
{
    match function {
        Builtin::Setattr => true,
        _ => false,
    }
}

/// Calls a builtin function.
#[tactic(auto, using(crate::proofs::CallLemmas::function_operated, crate::proofs::CallLemmas::attribute_set, crate::proofs::CallLemmas::no_operation))]
fn call_builtin(
    alloc: Global,
    function: Option<Builtin>,
    args: &Args,
    blocks: &Blocks,
    cells: &mut Seq<Option<Value>>,
    slots: &mut Slots,
    heap: &mut Heap,
) -> Result<Progress, Memory>
    ensures row { IfOk result
        (λ p. CallsBuiltin function args.now blocks.now slots.old cells.old heap.old p slots.new
        cells.new heap.new) }
    ensures active { OnOk result (active_in slots.new ≡ active_in slots.old) }
{
    let Some(function) = function else {
        return Ok(Progress::Outside {
            what: What::Feature,
        });
    };
    if is_setattr(function) {
        return call_setattr(alloc, args, slots, heap);
    }
    operate(alloc, function, args, blocks, cells, slots, heap)
}

/// Calls a method of a builtin value, which but for `sort` takes arguments without names.
#[tactic(auto, using(crate::proofs::MethodLemmas::method_operated, crate::proofs::MethodLemmas::method_misnamed, crate::proofs::MethodLemmas::no_method))]
fn call_method(
    alloc: Global,
    method: Option<MethodName>,
    receiver: Value,
    args: &Args,
    blocks: &Blocks,
    cells: &mut Seq<Option<Value>>,
    slots: &mut Slots,
    heap: &mut Heap,
) -> Result<Progress, Memory>
    ensures row { IfOk result
        (λ p. CallsMethod blocks.now method receiver args.now slots.old cells.old heap.old p slots.new
        cells.new heap.new) }
    ensures active { OnOk result (active_in slots.new ≡ active_in slots.old) }
{
    let Some(method) = method else {
        return Ok(Progress::Outside {
            what: What::Feature,
        });
    };
    let Some(operands) = method_operands(alloc, method, receiver, args)? else {
        return Ok(Progress::Outside {
            what: What::Feature,
        });
    };
    let op = Op::CallMethod(method);
    operate_or_ask(alloc, op, operands.as_slice(), blocks, cells, slots, heap)
}

/// A class, if it is one of exceptions.
fn exception_at(heap: &Heap, class: ObjId) -> Option<ObjId>
    ensures { result ≡ exception_at heap.now class }
{
    if derives(heap, BASE_EXCEPTION, class) {
        Some(class)
    } else {
        None
    }
}

/// Makes an exception of a class, if there is one, of arguments without names (Library Reference,
/// "Built-in Exceptions").
#[tactic(auto, using(crate::proofs::ExceptionLemmas::made_one, crate::proofs::ExceptionLemmas::no_class, crate::proofs::ExceptionLemmas::named))]
fn make_exception(
    alloc: Global,
    class: Option<ObjId>,
    args: &Args,
    slots: &mut Slots,
    heap: &mut Heap,
) -> Result<Progress, Memory>
    ensures row { IfOk result
        (λ p. MakesException class args.now slots.old heap.old p slots.new heap.new) }
    ensures active { OnOk result (active_in slots.new ≡ active_in slots.old) }
{
    let Some(class) = class else {
        return Ok(Progress::Outside {
            what: What::Feature,
        });
    };
    if !args.named.is_empty() {
        return Ok(Progress::Outside {
            what: What::Feature,
        });
    }
    let values = Seq::from_slice(alloc, args.plain.as_slice())?;
    let exception = error(alloc, heap, class, values, None, None);
    place(exception, slots, heap)
}

/// Calls a class of a script: an instance is made, for which `__init__` is called (Language Reference
/// 3.3.1).
#[tactic(auto, using(crate::proofs::MethodLemmas::scripted_done))]
fn call_scripted(
    alloc: Global,
    class: ObjId,
    args: &Args,
    blocks: &Blocks,
    cells: &mut Seq<Option<Value>>,
    slots: &mut Slots,
    heap: &mut Heap,
) -> Result<Progress, Memory>
    ensures row { IfOk result
        (λ p. CallsScripted blocks.now class args.now slots.old cells.old heap.old p slots.new
        cells.new heap.new) }
    ensures active { OnOk result (active_in slots.new ≡ active_in slots.old) }
{
    match make_instance(alloc, class, args, slots, heap)? {
        Instance::Done(progress) => Ok(progress),
        Instance::Initialized { function, made } => {
            let args = with_receiver(alloc, made, args)?;
            let given = Given::Made { made };
            call_function(alloc, function, &args, given, blocks, cells, heap)
        }
    }
}

/// Calls a class that is none of those which an operation makes instances of: it may ask a function
/// of the prelude, be a script's, or be a class of exceptions.
#[tactic(auto, using(crate::proofs::MethodLemmas::scripted_called, crate::proofs::MethodLemmas::exception_called))]
fn call_other_class(
    alloc: Global,
    class: ObjId,
    args: &Args,
    blocks: &Blocks,
    cells: &mut Seq<Option<Value>>,
    slots: &mut Slots,
    heap: &mut Heap,
) -> Result<Progress, Memory>
    ensures row { IfOk result
        (λ p. CallsOtherClass blocks.now class args.now slots.old cells.old heap.old p slots.new
        cells.new heap.new) }
    ensures active { OnOk result (active_in slots.new ≡ active_in slots.old) }
{
    match helper_of_class(class) {
        Some(helper) => ask(alloc, helper, args, Given::Itself, blocks, cells, heap),
        None => {
            if is_scripted(heap, class) {
                return call_scripted(alloc, class, args, blocks, cells, slots, heap);
            }
            make_exception(alloc, exception_at(heap, class), args, slots, heap)
        }
    }
}

/// Calls a class.
#[tactic(auto, using(crate::proofs::MethodLemmas::object_called, crate::proofs::MethodLemmas::super_called, crate::proofs::MethodLemmas::class_operated, crate::proofs::MethodLemmas::other_class_called))]
fn call_class(
    alloc: Global,
    class: ObjId,
    args: &Args,
    blocks: &Blocks,
    facts: &BlockFacts,
    locals: &Seq<Option<Value>>,
    numbers: &Seq<u32>,
    own: &Names,
    cells: &mut Seq<Option<Value>>,
    slots: &mut Slots,
    heap: &mut Heap,
) -> Result<Progress, Memory>
    ensures row { IfOk result
        (λ p. CallsAnyClass blocks.now (running facts.now locals.now numbers.now own.now) class
        args.now slots.old cells.old heap.old p slots.new cells.new heap.new) }
    ensures active { OnOk result (active_in slots.new ≡ active_in slots.old) }
{
    match of_class(class) {
        Some(Builtin::Object) => make_object(alloc, args, slots, heap),
        Some(Builtin::Super) => {
            make_super(alloc, args, facts, locals, numbers, own, cells, slots, heap)
        }
        Some(function) => operate(alloc, function, args, blocks, cells, slots, heap),
        None => call_other_class(alloc, class, args, blocks, cells, slots, heap),
    }
}

/// Calls a value that is no function, no class and no method: an instance by its `__call__`, which is
/// one of a script.
#[tactic(auto, using(crate::proofs::ValueLemmas::none_called))]
fn call_instance(
    alloc: Global,
    callee: Value,
    args: &Args,
    blocks: &Blocks,
    facts: &BlockFacts,
    locals: &Seq<Option<Value>>,
    numbers: &Seq<u32>,
    own: &Names,
    cells: &mut Seq<Option<Value>>,
    slots: &mut Slots,
    heap: &mut Heap,
) -> Result<Progress, Memory>
    requires function { function_of heap.old callee ≡ None }
    requires bound { bound_of heap.old callee ≡ None }
    requires builtin { builtin_of heap.old callee ≡ None }
    requires method { method_of heap.old callee ≡ None }
    requires class { class_id_of heap.old callee ≡ None }
    ensures row { IfOk result
        (λ p. CallsOnce blocks.now (running facts.now locals.now numbers.now own.now) callee
        args.now slots.old cells.old heap.old p slots.new cells.new heap.new) }
    ensures active { OnOk result (active_in slots.new ≡ active_in slots.old) }
{
    match special_of(alloc, heap, callee, "__call__")? {
        Some(Found::Bound(function)) => {
            let args = with_receiver(alloc, callee, args)?;
            call_function(alloc, function, &args, Given::Itself, blocks, cells, heap)
        }
        _ => not_callable(alloc, heap, callee),
    }
}

/// Calls a value that is no function of a script or of the prelude, and no method of an instance.
#[tactic(auto, using(crate::proofs::ValueLemmas::builtin_called, crate::proofs::ValueLemmas::method_called, crate::proofs::ValueLemmas::class_called))]
fn call_other(
    alloc: Global,
    callee: Value,
    args: &Args,
    blocks: &Blocks,
    facts: &BlockFacts,
    locals: &Seq<Option<Value>>,
    numbers: &Seq<u32>,
    own: &Names,
    cells: &mut Seq<Option<Value>>,
    slots: &mut Slots,
    heap: &mut Heap,
) -> Result<Progress, Memory>
    requires function { function_of heap.old callee ≡ None }
    requires bound { bound_of heap.old callee ≡ None }
    ensures row { IfOk result
        (λ p. CallsOnce blocks.now (running facts.now locals.now numbers.now own.now) callee
        args.now slots.old cells.old heap.old p slots.new cells.new heap.new) }
    ensures active { OnOk result (active_in slots.new ≡ active_in slots.old) }
{
    if let Some(builtin) = builtin_of(heap, callee) {
        return call_builtin(alloc, builtin, args, blocks, cells, slots, heap);
    }
    if let Some((method, receiver)) = method_of(heap, callee) {
        return call_method(alloc, method, receiver, args, blocks, cells, slots, heap);
    }
    if let Some(class) = class_id_of(heap, callee) {
        return call_class(
            alloc, class, args, blocks, facts, locals, numbers, own, cells, slots, heap,
        );
    }
    call_instance(
        alloc, callee, args, blocks, facts, locals, numbers, own, cells, slots, heap,
    )
}

/// Calls a value in the block with these names. It is no instance for which another value is called.
fn call_once(
    alloc: Global,
    callee: Value,
    args: &Args,
    blocks: &Blocks,
    facts: &BlockFacts,
    locals: &Seq<Option<Value>>,
    numbers: &Seq<u32>,
    own: &Names,
    cells: &mut Seq<Option<Value>>,
    slots: &mut Slots,
    heap: &mut Heap,
) -> Result<Progress, Memory>
    ensures row { IfOk result
        (λ p. CallsOnce blocks.now (running facts.now locals.now numbers.now own.now) callee
        args.now slots.old cells.old heap.old p slots.new cells.new heap.new) }
    ensures active { OnOk result (active_in slots.new ≡ active_in slots.old) }
{
    if function_of(heap, callee).is_some() {
        return call_function(alloc, callee, args, Given::Itself, blocks, cells, heap);
    }
    if let Some(method) = bound_of(heap, callee) {
        let args = with_receiver(alloc, method.receiver, args)?;
        return call_function(
            alloc,
            method.function,
            &args,
            Given::Itself,
            blocks,
            cells,
            heap,
        );
    }
    call_other(
        alloc, callee, args, blocks, facts, locals, numbers, own, cells, slots, heap,
    )
}

/// The value that is called for an instance whose `__call__` is no function of a script.
fn next_callee(alloc: Global, heap: &Heap, callee: Value) -> Result<Option<Value>, Memory>
    ensures { IfOk result (λ next. next ≡ next_callee heap.now callee) }
{
    match special_of(alloc, heap, callee, "__call__")? {
        Some(Found::Plain(next)) => Ok(Some(next)),
        _ => Ok(None),
    }
}

/// The value that is called in the end, if no more than so many are called in turn.
#[tactic(auto, using(crate::proofs::ValueLemmas::none_left, crate::proofs::ValueLemmas::one_less, crate::proofs::ValueLemmas::last_here))]
fn last_callee(
    alloc: Global,
    heap: &Heap,
    callee: Value,
    left: u32,
) -> Result<Option<Value>, Memory>
    ensures { IfOk result (λ last. last ≡ last_callee left heap.now callee) }
{
    if left == 0 {
        return Ok(None);
    }
    match next_callee(alloc, heap, callee)? {
        Some(next) => last_callee(alloc, heap, next, left - 1),
        None => Ok(Some(callee)),
    }
}

/// More instances are called in turn than may be.
fn too_deep(alloc: Global) -> Result<Progress, Memory>
    ensures { IfOk result (λ p. p ≡ too_deep) }
{
    let text = Text::from_str(alloc, "too many activations")?;
    Ok(Progress::FailsSaying {
        class: RECURSION_ERROR,
        text,
    })
}

/// So many values may be called in turn.
const CALL_LIMIT: u32 = 1_001;

/// Calls a value in the block with these names.
#[tactic(auto, using(crate::proofs::ValueLemmas::last_called, crate::proofs::ValueLemmas::too_deep_called))]
pub fn call_value(
    alloc: Global,
    callee: Value,
    args: &Args,
    blocks: &Blocks,
    facts: &BlockFacts,
    locals: &Seq<Option<Value>>,
    numbers: &Seq<u32>,
    own: &Names,
    cells: &mut Seq<Option<Value>>,
    slots: &mut Slots,
    heap: &mut Heap,
) -> Result<Progress, Memory>
    ensures row { IfOk result
        (λ p. CallsValue blocks.now (running facts.now locals.now numbers.now own.now) callee
        args.now slots.old cells.old heap.old p slots.new cells.new heap.new) }
    ensures active { OnOk result (active_in slots.new ≡ active_in slots.old) }
{
    match last_callee(alloc, heap, callee, CALL_LIMIT)? {
        Some(callee) => call_once(
            alloc, callee, args, blocks, facts, locals, numbers, own, cells, slots, heap,
        ),
        None => too_deep(alloc),
    }
}

/// Calls what lies below so many arguments, up to the run of its block.
#[tactic(auto, using(crate::proofs::RowLemmas::call_row, crate::proofs::RowLemmas::call_lacks_arguments, crate::proofs::RowLemmas::call_lacks_callee))]
pub fn call(
    alloc: Global,
    count: u32,
    blocks: &Blocks,
    facts: &BlockFacts,
    locals: &Seq<Option<Value>>,
    numbers: &Seq<u32>,
    own: &Names,
    cells: &mut Seq<Option<Value>>,
    slots: &mut Slots,
    heap: &mut Heap,
) -> Result<Progress, Memory>
    ensures row { IfOk result
        (λ p. RowsCall blocks.now (running facts.now locals.now numbers.now own.now)
        (instr.Call count) slots.old cells.old heap.old p slots.new cells.new heap.new) }
    ensures active { OnOk result (active_in slots.new ≡ active_in slots.old) }
{
    let Some(plain) = take_values(alloc, count as usize, slots)? else {
        return Ok(Progress::Lacks);
    };
    let Some(callee) = take_one(slots) else {
        return Ok(Progress::Lacks);
    };
    let args = Args {
        plain,
        named: Seq::new(alloc),
    };
    call_value(
        alloc, callee, &args, blocks, facts, locals, numbers, own, cells, slots, heap,
    )
}

/// The same where the last arguments have these names.
#[tactic(auto, using(crate::proofs::RowLemmas::named_call_row, crate::proofs::RowLemmas::named_call_lacks_arguments, crate::proofs::RowLemmas::named_call_lacks_callee))]
pub fn call_with_names(
    alloc: Global,
    count: u32,
    list: ListNo,
    names: &[Text],
    blocks: &Blocks,
    facts: &BlockFacts,
    locals: &Seq<Option<Value>>,
    numbers: &Seq<u32>,
    own: &Names,
    cells: &mut Seq<Option<Value>>,
    slots: &mut Slots,
    heap: &mut Heap,
) -> Result<Progress, Memory>
    ensures row { IfOk result
        (λ p. RowsNamedCall names.now list.0 blocks.now
        (running facts.now locals.now numbers.now own.now) (instr.CallKw count list) slots.old
        cells.old heap.old p slots.new cells.new heap.new) }
    ensures active { OnOk result (active_in slots.new ≡ active_in slots.old) }
{
    let Some(values) = take_values(alloc, count as usize, slots)? else {
        return Ok(Progress::Lacks);
    };
    let Some(callee) = take_one(slots) else {
        return Ok(Progress::Lacks);
    };
    let args = named_last(alloc, names, values)?;
    call_value(
        alloc, callee, &args, blocks, facts, locals, numbers, own, cells, slots, heap,
    )
}

/// The same where each argument has its role by a text: none, a name, or that it is spread.
#[tactic(auto, using(crate::proofs::RowLemmas::role_call_row, crate::proofs::RowLemmas::role_call_misspread, crate::proofs::RowLemmas::role_call_lacks_arguments, crate::proofs::RowLemmas::role_call_lacks_callee))]
pub fn call_with_roles(
    alloc: Global,
    count: u32,
    list: ListNo,
    names: &[Text],
    blocks: &Blocks,
    facts: &BlockFacts,
    locals: &Seq<Option<Value>>,
    numbers: &Seq<u32>,
    own: &Names,
    cells: &mut Seq<Option<Value>>,
    slots: &mut Slots,
    heap: &mut Heap,
) -> Result<Progress, Memory>
    ensures row { IfOk result
        (λ p. RowsNamedCall names.now list.0 blocks.now
        (running facts.now locals.now numbers.now own.now) (instr.CallSpread count list) slots.old
        cells.old heap.old p slots.new cells.new heap.new) }
    ensures active { OnOk result (active_in slots.new ≡ active_in slots.old) }
{
    let Some(values) = take_values(alloc, count as usize, slots)? else {
        return Ok(Progress::Lacks);
    };
    let Some(callee) = take_one(slots) else {
        return Ok(Progress::Lacks);
    };
    if !are_arguments(heap, names, values.as_slice()) {
        return Ok(Progress::Outside {
            what: What::Feature,
        });
    }
    let args = arguments(alloc, heap, names, values.as_slice())?;
    call_value(
        alloc, callee, &args, blocks, facts, locals, numbers, own, cells, slots, heap,
    )
}
