//! Instructions of local names.
ghost use Rattle.std.specs.Prelude.{◌≡◌, true, IfOk};
ghost use Rattle.pt_machine.specs.Groups.{names_local};
ghost use Rattle.pt_machine.specs.Performing.{Performs};

use pt_base::Memory;
use pt_body_rows::{delete_local, fresh_local, local, set_local};
use pt_code_tables::{CodeTables, Machine, Progress};
use pt_instr::Instr;

/// Does the row of an instruction of a local name.
#[tactic(auto, using(crate::proofs::NameRows::local_row, crate::proofs::NameRows::set_local, crate::proofs::NameRows::deleted_local, crate::proofs::NameRows::fresh_local))]
pub fn perform_local(
    tables: &CodeTables,
    machine: &mut Machine,
    instr: Instr,
) -> Result<Progress, Memory>
    requires { names_local instr ≡ true }
    ensures { IfOk result (λ p. Performs tables.now instr p machine.old machine.new) }
{
    let alloc = machine.alloc;
    let facts = tables.facts.get(machine.here.block, machine.here.hidden);
    let locals = &mut machine.here.locals;
    let slots = &mut machine.here.slots;
    match instr {
        Instr::Local(slot) => local(alloc, slot, facts, locals, slots),
        Instr::SetLocal(slot) => Ok(set_local(slot, locals, slots)),
        Instr::DelLocal(slot) => delete_local(alloc, slot, facts, locals),
        Instr::FreshLocal(slot) => Ok(fresh_local(slot, locals)),
        _ => unreachable!(),
    }
}
