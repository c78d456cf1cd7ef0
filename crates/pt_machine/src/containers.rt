//! Instructions of containers, iterators and texts.
ghost use Rattle.std.specs.Prelude.{◌≡◌, true, IfOk};
ghost use Rattle.pt_machine.specs.Groups.{uses_containers};
ghost use Rattle.pt_machine.specs.Performing.{Performs};

use pt_base::Memory;
use pt_code_tables::{CodeTables, Machine, Progress};
use pt_container_rows::{
    add_to_dict, add_to_list, add_to_set, delete_item, iter, next, set_item, unpack, unpack_star,
};
use pt_instr::Instr;
use pt_operation_rows::{dict, format, item, join, list, set, slice, spread, spread_named, tuple};

/// Does the row of an instruction of containers, of iterators, of f-strings or of
/// arguments that are spread.
#[tactic(auto, using(crate::proofs::CallRows::operated, crate::proofs::CallRows::called))]
pub fn perform_container(
    tables: &CodeTables,
    machine: &mut Machine,
    instr: Instr,
) -> Result<Progress, Memory>
    requires { uses_containers instr ≡ true }
    ensures { IfOk result (λ p. Performs tables.now instr p machine.old machine.new) }
{
    let alloc = machine.alloc;
    let facts = &tables.facts;
    let here = facts.get(machine.here.block, machine.here.hidden);
    let cells = &mut machine.frames.cells;
    let slots = &mut machine.here.slots;
    let heap = &mut machine.heap;
    match instr {
        Instr::Item => item(
            alloc,
            facts,
            here,
            &machine.here.locals,
            &machine.here.cells,
            &machine.here.names,
            cells,
            slots,
            heap,
        ),
        Instr::SetItem => set_item(alloc, facts, cells, slots, heap),
        Instr::DelItem => delete_item(alloc, facts, cells, slots, heap),
        Instr::Slice => slice(alloc, facts, cells, slots, heap),
        Instr::Tuple(count) => tuple(alloc, count, facts, cells, slots, heap),
        Instr::List(count) => list(alloc, count, facts, cells, slots, heap),
        Instr::Set(count) => set(alloc, count, facts, cells, slots, heap),
        Instr::Dict(count) => dict(alloc, count, facts, cells, slots, heap),
        Instr::ListAdd(count) => add_to_list(alloc, count, facts, cells, slots, heap),
        Instr::SetAdd(count) => add_to_set(alloc, count, facts, cells, slots, heap),
        Instr::DictAdd(count) => add_to_dict(alloc, count, facts, cells, slots, heap),
        Instr::Format(conversion) => format(alloc, conversion, facts, cells, slots, heap),
        Instr::Join(count) => join(alloc, count, facts, cells, slots, heap),
        Instr::Unpack(count) => unpack(alloc, count, facts, cells, slots, heap),
        Instr::UnpackStar(before, after) => {
            unpack_star(alloc, before, after, facts, cells, slots, heap)
        }
        Instr::Spread => spread(alloc, facts, cells, slots, heap),
        Instr::SpreadMap => spread_named(alloc, facts, cells, slots, heap),
        Instr::Iter => iter(alloc, facts, cells, slots, heap),
        Instr::Next(to) => next(alloc, to, facts, cells, slots, heap),
        _ => unreachable!(),
    }
}
