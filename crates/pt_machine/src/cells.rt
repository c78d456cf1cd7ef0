//! Instructions of names that have cells.
ghost use Rattle.std.specs.Prelude.{◌≡◌, true, IfOk};
ghost use Rattle.pt_machine.specs.Groups.{names_cell};
ghost use Rattle.pt_machine.specs.Performing.{Performs};

use pt_base::Memory;
use pt_body_rows::{cell, delete_cell, fresh_cell, push_cell, set_cell};
use pt_code_tables::{CodeTables, Machine, Progress};
use pt_instr::Instr;

/// Does the row of an instruction of a cell or free name.
#[tactic(auto, using(crate::proofs::NameRows::loaded_cell, crate::proofs::NameRows::set_cell, crate::proofs::NameRows::deleted_cell, crate::proofs::NameRows::fresh_cell, crate::proofs::NameRows::pushed_cell))]
pub fn perform_cell(
    tables: &CodeTables,
    machine: &mut Machine,
    instr: Instr,
) -> Result<Progress, Memory>
    requires { names_cell instr ≡ true }
    ensures { IfOk result (λ p. Performs tables.now instr p machine.old machine.new) }
{
    let alloc = machine.alloc;
    let facts = tables.facts.get(machine.here.block, machine.here.hidden);
    let own = &mut machine.here.cells;
    let cells = &mut machine.frames.cells;
    let slots = &mut machine.here.slots;
    match instr {
        Instr::Cell(slot) => cell(alloc, slot, facts, own, cells, slots),
        Instr::SetCell(slot) => Ok(set_cell(slot, own, cells, slots)),
        Instr::DelCell(slot) => delete_cell(alloc, slot, facts, own, cells),
        Instr::FreshCell(slot) => fresh_cell(slot, facts, own, cells),
        Instr::PushCell(slot) => push_cell(slot, own, slots),
        _ => unreachable!(),
    }
}
