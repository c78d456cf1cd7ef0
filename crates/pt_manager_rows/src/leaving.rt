//! A context manager is left (Language Reference 3.3.9, 8.5).
ghost use Rattle.std.specs.Prelude.{◌≡◌, ◌∷◌, false, List, Ok, IfErr, IfOk, OnOk};
ghost use Rattle.pt_bind.specs.Binding.{binding_with, IsTold};
ghost use Rattle.pt_block_calls.specs.BlockCalls.{RowsOperation, without_defaults, without_names};
ghost use Rattle.pt_block_calls.specs.pt_class_rows.Calls.{is_memory};
ghost use Rattle.pt_block_calls.specs.pt_operators.pt_moves.sem_rows.declared.heap_rows.progress.Progress.TheVariants as progress;
ghost use Rattle.pt_block_calls.specs.pt_operators.pt_moves.sem_rows.heap_rows.Views.{completion_view};
ghost use Rattle.pt_block_calls.specs.pt_operators.pt_moves.sem_rows.pt_host.Managers.{exit_arguments};
ghost use Rattle.pt_base.specs.declared.what.What.TheVariants.{Feature};
ghost use Rattle.pt_frames.specs.Slots.{active_in};
ghost use Rattle.pt_frames.specs.declared.slot.Slot.{Slot};
ghost use Rattle.pt_instr.specs.declared.Instr.TheVariants as instr;
ghost use Rattle.pt_manager_rows.specs.ManagerRows.{Leaves, LeavesBy, RunsExit, held_in, held_on};
ghost use Rattle.sem_code.specs.slots.Slots.{raise_of};

use pt_base::{Dup, Memory, Seq, What};
use pt_bind::{Args, BindErr, Locals, bind_with};
use pt_block_calls::{
    BlockFacts, Blocks, Progress, bound_of, exit_arguments, function_of, open, values_given,
    with_first,
};
use pt_frames::{Purpose, Slot, Slots};
use pt_heap::{Completion, Function, Heap, Method, Value};
use std::alloc::Global;

/// The completion that a slot holds, and what is called that the slot below it holds.
fn held_in(top: Option<Slot>, below: Option<Slot>) -> Option<(Completion, Value)>
    ensures { result ≡ held_in top below }
{
    match top {
        Some(Slot::Pending(how)) => match below {
            Some(Slot::With(exit)) => Some((how, exit)),
            _ => None,
        },
        _ => None,
    }
}

/// By which completion a manager is left, and what is called then. Both stay on the slots until that
/// has been called: the raise that is held is active (Language Reference 7.8).
#[tactic(auto, using(crate::proofs::LeaveLemmas::first_held))]
fn held_on(slots: &Slots) -> Option<(Completion, Value)>
    ensures { result ≡ held_on slots.now }
{
    held_in(slots.get(0), slots.get(1))
}

/// The raise that a completion is.
fn raise_of(how: Completion) -> Option<Value>
    ensures { result ≡ raise_of (completion_view how) }
{
    match how {
        Completion::Raise(exception) => Some(exception),
        _ => None,
    }
}

/// Runs a block with these facts, whose parameters are bound so, as a manager is left.
#[tactic(auto, using(crate::proofs::LeaveLemmas::unsupported_block, crate::proofs::LeaveLemmas::opened, crate::proofs::LeaveLemmas::no_room))]
fn run(
    alloc: Global,
    facts: &BlockFacts,
    function: &Function,
    bound: Locals,
    how: Completion,
    cells: &mut Seq<Option<Value>>,
    heap: &mut Heap,
) -> Result<Progress, Memory>
    ensures { IfOk result (λ p. (slots : List Slot)
        → RunsExit facts.now function.now bound how slots cells.old heap.old p cells.new heap.new) }
{
    if facts.yields {
        return Ok(Progress::Outside {
            what: What::Feature,
        });
    }
    match values_given(alloc, &facts.params, bound, heap)? {
        Ok(values) => {
            let values = values.as_slice();
            let locals = open(alloc, facts, values, function.cells.as_slice(), cells)?;
            Ok(Progress::Calls {
                block: function.block,
                hidden: function.hidden,
                locals,
                why: Purpose::Exit { completion: how },
            })
        }
        Err(what) => Ok(Progress::Outside { what }),
    }
}

/// A function without its defaults, which have done their part once its arguments are bound.
fn without_defaults(alloc: Global, function: &Function) -> Result<Function, Memory>
    ensures { IfOk result (λ f. f ≡ without_defaults function.now) }
{
    Ok(Function {
        block: function.block,
        hidden: function.hidden,
        defaults: Seq::new(alloc),
        cells: function.cells.dup(alloc)?,
    })
}

/// Gives each parameter of a function its argument (Language Reference 6.3.4).
fn bind(
    alloc: Global,
    facts: &BlockFacts,
    function: &Function,
    args: &Args,
) -> Result<Locals, BindErr>
    ensures ok { IfOk result
        (λ locals. binding_with facts.now.params function.now.defaults args.now ≡ Ok locals) }
    ensures err { IfErr result
        (IsTold (binding_with facts.now.params function.now.defaults args.now)) }
{
    bind_with(alloc, &facts.params, function.defaults.as_slice(), args)
}

/// Parameters that don't take the arguments aren't told of yet.
fn untaken(error: BindErr) -> Result<Progress, Memory>
    ensures { IfOk result (λ p. (is_memory error ≡ false) × (p ≡ progress.Outside Feature)) }
{
    match error {
        BindErr::Memory => Err(Memory),
        _ => Ok(Progress::Outside {
            what: What::Feature,
        }),
    }
}

/// Calls the function that a value is, as a manager is left.
#[tactic(auto, using(crate::proofs::LeaveLemmas::none_called, crate::proofs::LeaveLemmas::function_runs, crate::proofs::LeaveLemmas::untaken))]
fn call_exit(
    alloc: Global,
    callee: Value,
    args: &Args,
    how: Completion,
    blocks: &Blocks,
    cells: &mut Seq<Option<Value>>,
    heap: &mut Heap,
) -> Result<Progress, Memory>
    ensures { IfOk result (λ p. (slots : List Slot) → LeavesBy blocks.now callee args.now how slots
        cells.old heap.old p cells.new heap.new) }
{
    let Some(function) = function_of(heap, callee) else {
        return Ok(Progress::Outside {
            what: What::Feature,
        });
    };
    let bare = without_defaults(alloc, function)?;
    let facts = blocks.get(bare.block, bare.hidden);
    match bind(alloc, facts, function, args) {
        Ok(bound) => run(alloc, facts, &bare, bound, how, cells, heap),
        Err(error) => untaken(error),
    }
}

/// What a method is called with as its manager is left.
fn arguments_of(
    alloc: Global,
    heap: &Heap,
    method: Method,
    raised: Option<Value>,
) -> Result<Args, Memory>
    ensures { IfOk result (λ args. args
        ≡ without_names (method.receiver ∷ exit_arguments heap.now raised)) }
{
    let told = exit_arguments(alloc, heap, raised)?;
    with_first(alloc, method.receiver, told.as_slice())
}

/// Leaves a manager by a completion, where this is called.
#[tactic(auto, using(crate::proofs::LeaveLemmas::no_method, crate::proofs::LeaveLemmas::method_called))]
fn leave_by(
    alloc: Global,
    exit: Value,
    how: Completion,
    blocks: &Blocks,
    cells: &mut Seq<Option<Value>>,
    heap: &mut Heap,
) -> Result<Progress, Memory>
    ensures { IfOk result (λ p. (slots : List Slot)
        → Leaves exit how blocks.now slots cells.old heap.old p cells.new heap.new) }
{
    match bound_of(heap, exit) {
        Some(method) => {
            let args = arguments_of(alloc, heap, method, raise_of(how))?;
            call_exit(alloc, method.function, &args, how, blocks, cells, heap)
        }
        None => Ok(Progress::Outside {
            what: What::Feature,
        }),
    }
}

/// Leaves the context manager whose exit lies below the completion on top, which both stay there
/// until the exit has been called (Language Reference 8.5).
#[tactic(auto, using(crate::proofs::LeaveLemmas::exit_lacks, crate::proofs::LeaveLemmas::exit_row))]
pub fn exit(
    alloc: Global,
    blocks: &Blocks,
    cells: &mut Seq<Option<Value>>,
    slots: &mut Slots,
    heap: &mut Heap,
) -> Result<Progress, Memory>
    ensures row { IfOk result (λ p. RowsOperation instr.Exit blocks.now slots.old
        cells.old heap.old p slots.new cells.new heap.new) }
    ensures active { OnOk result (active_in slots.new ≡ active_in slots.old) }
{
    match held_on(slots) {
        Some(held) => leave_by(alloc, held.1, held.0, blocks, cells, heap),
        None => Ok(Progress::Lacks),
    }
}
