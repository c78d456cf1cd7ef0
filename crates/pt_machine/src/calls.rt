//! Instructions that make functions and classes, and call.
ghost use Rattle.std.specs.Prelude.{◌≡◌, true, IfOk};
ghost use Rattle.pt_machine.specs.Groups.{calls};
ghost use Rattle.pt_machine.specs.Performing.{Performs};

use pt_base::Memory;
use pt_code_tables::{CodeTables, Machine, Progress};
use pt_instr::Instr;
use pt_operation_rows::{call, call_with_names, call_with_roles, make_class, make_function};

/// Does the row of an instruction that makes a function or a class, or calls.
#[tactic(auto, using(crate::proofs::CallRows::called, crate::proofs::CallRows::called_with_names))]
pub fn perform_call(
    tables: &CodeTables,
    machine: &mut Machine,
    instr: Instr,
) -> Result<Progress, Memory>
    requires { calls instr ≡ true }
    ensures { IfOk result (λ p. Performs tables.now instr p machine.old machine.new) }
{
    let alloc = machine.alloc;
    let hidden = machine.here.hidden;
    let pool = tables.pool(hidden);
    let cells = &mut machine.frames.cells;
    let slots = &mut machine.here.slots;
    let heap = &mut machine.heap;
    let facts = &tables.facts;
    let here = facts.get(machine.here.block, hidden);
    let locals = &machine.here.locals;
    let numbers = &machine.here.cells;
    let own = &machine.here.names;
    match instr {
        Instr::Call(count) => call(
            alloc, count, facts, here, locals, numbers, own, cells, slots, heap,
        ),
        Instr::CallKw(count, list) => {
            let names = pool.list(list);
            call_with_names(
                alloc, count, list, names, facts, here, locals, numbers, own, cells, slots, heap,
            )
        }
        Instr::CallSpread(count, list) => {
            let names = pool.list(list);
            call_with_roles(
                alloc, count, list, names, facts, here, locals, numbers, own, cells, slots, heap,
            )
        }
        Instr::MakeFunction(block, _count, list) => {
            let names = pool.list(list);
            let captures = pool.captures(block);
            make_function(alloc, block, list, names, captures, hidden, slots, heap)
        }
        Instr::MakeClass(block) => {
            let captures = pool.captures(block);
            make_class(alloc, block, captures, hidden, facts, cells, slots)
        }
        _ => unreachable!(),
    }
}
