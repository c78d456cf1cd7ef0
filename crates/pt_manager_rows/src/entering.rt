//! A context manager is entered (Language Reference 3.3.9, 8.5).
ghost use Rattle.std.specs.Prelude.{◌≡◌, List, IfOk, OnOk};
ghost use Rattle.pt_block_calls.specs.BlockCalls.{RowsOperation};
ghost use Rattle.pt_block_calls.specs.pt_operators.pt_moves.sem_rows.pt_host.Managers.{manager_of};
ghost use Rattle.pt_frames.specs.Slots.{active_in};
ghost use Rattle.pt_frames.specs.declared.slot.Slot.{Slot};
ghost use Rattle.pt_instr.specs.declared.Instr.TheVariants as instr;
ghost use Rattle.pt_manager_rows.specs.ManagerRows.{Enters, EntersBy, methods};

use pt_base::{Memory, Seq, What};
use pt_block_calls::{
    Blocks, Given, Manager, Progress, allot, call_function, manager_of, missing, take_one,
    without_names,
};
use pt_content::Found;
use pt_frames::Slots;
use pt_heap::{Heap, Method, Object, Value};
use std::alloc::Global;

/// Calls the method that a manager is entered by, where this is called as it is left.
#[tactic(auto, using(crate::proofs::EnterLemmas::not_called, crate::proofs::EnterLemmas::function_called))]
fn call_enter(
    alloc: Global,
    enter: Found,
    manager: Value,
    exit: Value,
    blocks: &Blocks,
    cells: &mut Seq<Option<Value>>,
    heap: &mut Heap,
) -> Result<Progress, Memory>
    ensures { IfOk result (λ p. (slots : List Slot)
        → EntersBy enter manager exit blocks.now slots cells.old heap.old p cells.new heap.new) }
{
    match enter {
        Found::Bound(function) => {
            let args = without_names(alloc, &[manager])?;
            let given = Given::Enter { exit };
            call_function(alloc, function, &args, given, blocks, cells, heap)
        }
        _ => Ok(Progress::Outside {
            what: What::Feature,
        }),
    }
}

/// Binds the method that a manager is left by, before the one is called by which it is entered.
#[tactic(auto, using(crate::proofs::EnterLemmas::no_room, crate::proofs::EnterLemmas::exit_bound))]
fn bind_exit(
    alloc: Global,
    enter: Found,
    exit: Value,
    manager: Value,
    blocks: &Blocks,
    cells: &mut Seq<Option<Value>>,
    heap: &mut Heap,
) -> Result<Progress, Memory>
    ensures { IfOk result (λ p. (slots : List Slot) → Enters (methods enter exit) manager
        blocks.now slots cells.old heap.old p cells.new heap.new) }
{
    let method = Object::Method(Method {
        function: exit,
        receiver: manager,
    });
    match allot(heap, method)? {
        Some(bound) => call_enter(alloc, enter, manager, bound, blocks, cells, heap),
        None => Ok(Progress::Outside { what: What::Heap }),
    }
}

/// Enters a value, by the methods that it has.
#[tactic(auto, using(crate::proofs::EnterLemmas::unavailable, crate::proofs::EnterLemmas::by_methods, crate::proofs::EnterLemmas::no_enter, crate::proofs::EnterLemmas::no_exit))]
fn enter_by(
    alloc: Global,
    manager: Value,
    blocks: &Blocks,
    cells: &mut Seq<Option<Value>>,
    heap: &mut Heap,
) -> Result<Progress, Memory>
    ensures { IfOk result (λ p. (slots : List Slot) → Enters (manager_of heap.old manager) manager
        blocks.now slots cells.old heap.old p cells.new heap.new) }
{
    match manager_of(alloc, heap, manager)? {
        Manager::Methods { enter, exit } => {
            bind_exit(alloc, enter, exit, manager, blocks, cells, heap)
        }
        Manager::NoEnter => missing(alloc, heap, manager, "__enter__"),
        Manager::NoExit => missing(alloc, heap, manager, "__exit__"),
        Manager::Unavailable => Ok(Progress::Outside {
            what: What::Feature,
        }),
    }
}

/// Enters the context manager on top: what its `__enter__` gives lies above what is called as it is
/// left (Language Reference 8.5).
#[tactic(auto, using(crate::proofs::EnterLemmas::enter_lacks, crate::proofs::EnterLemmas::enter_row))]
pub fn enter(
    alloc: Global,
    blocks: &Blocks,
    cells: &mut Seq<Option<Value>>,
    slots: &mut Slots,
    heap: &mut Heap,
) -> Result<Progress, Memory>
    ensures row { IfOk result (λ p. RowsOperation instr.Enter blocks.now slots.old
        cells.old heap.old p slots.new cells.new heap.new) }
    ensures active { OnOk result (active_in slots.new ≡ active_in slots.old) }
{
    match take_one(slots) {
        Some(manager) => enter_by(alloc, manager, blocks, cells, heap),
        None => Ok(Progress::Lacks),
    }
}
