//! Fast paths of common instructions.
ghost use Rattle.std.specs.Prelude.{◌≡◌, IfOk};
ghost use Rattle.pt_fast_rows.specs.FastPaths.{Leads};
ghost use Rattle.pt_machine.specs.Performing.{Performs};

use pt_base::{Memory, Pc};
use pt_code_tables::{CodeTables, Machine};
use pt_fast_rows::{
    fast_binary, fast_cell, fast_compare, fast_constant, fast_global, fast_in_place, fast_jump_if,
    fast_jump_unless, fast_local, fast_pop, fast_set_cell, fast_set_global, fast_set_local,
};
use pt_instr::Instr;

/// Does the row of a common instruction, where it has a fast path, and answers the place that is
/// next. Else nothing changes.
pub fn perform_fast(
    tables: &CodeTables,
    machine: &mut Machine,
    instr: Instr,
    next: Pc,
) -> Result<Option<Pc>, Memory>
    ensures { IfOk result (λ o. Leads next o
        (λ p. Performs tables.now instr p machine.old machine.new) (machine.new ≡ machine.old)) }
{
    let alloc = machine.alloc;
    let hidden = machine.here.hidden;
    let pool = tables.pool(hidden);
    let globals = &mut machine.frames.globals;
    let cells = &mut machine.frames.cells;
    let locals = &mut machine.here.locals;
    let own = &machine.here.cells;
    let slots = &mut machine.here.slots;
    match instr {
        Instr::Const(number) => fast_constant(pool.constant(number), next, slots),
        Instr::Pop => Ok(fast_pop(next, slots)),
        Instr::Jump(to) => Ok(Some(to)),
        Instr::JumpIf(to) => Ok(fast_jump_if(to, next, slots)),
        Instr::JumpUnless(to) => Ok(fast_jump_unless(to, next, slots)),
        Instr::Compare(op) => fast_compare(op, next, slots),
        Instr::Binary(op) => fast_binary(op, next, slots),
        Instr::InPlace(op) => fast_in_place(op, next, slots),
        Instr::Global(text) if !hidden => {
            fast_global(text, pool.text(text), next, globals, slots)
        }
        Instr::SetGlobal(text) => {
            fast_set_global(alloc, text, pool.text(text), next, globals, slots)
        }
        Instr::Local(slot) => fast_local(slot, next, locals, slots),
        Instr::SetLocal(slot) => Ok(fast_set_local(slot, next, locals, slots)),
        Instr::Cell(slot) => fast_cell(slot, next, own, cells, slots),
        Instr::SetCell(slot) => Ok(fast_set_cell(slot, next, own, cells, slots)),
        _ => Ok(None),
    }
}
