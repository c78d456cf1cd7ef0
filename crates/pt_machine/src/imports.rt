//! Instructions of modules and their names, which change slots and the heap.
ghost use Rattle.std.specs.Prelude.{◌≡◌, true, IfOk};
ghost use Rattle.pt_machine.specs.Groups.{imports};
ghost use Rattle.pt_machine.specs.Performing.{Performs};

use pt_attribute_rows::{import, import_name};
use pt_base::Memory;
use pt_code_tables::{CodeTables, Machine, Progress};
use pt_instr::Instr;

/// Does the row of an instruction of modules.
#[tactic(auto, using(crate::proofs::NameRows::import_row, crate::proofs::NameRows::import_name_row))]
pub fn perform_import(
    tables: &CodeTables,
    machine: &mut Machine,
    instr: Instr,
) -> Result<Progress, Memory>
    requires { imports instr ≡ true }
    ensures { IfOk result (λ p. Performs tables.now instr p machine.old machine.new) }
{
    let pool = tables.pool(machine.here.hidden);
    let alloc = machine.alloc;
    let slots = &mut machine.here.slots;
    let heap = &mut machine.heap;
    let facts = &tables.facts;
    match instr {
        Instr::Import(text) => import(alloc, text, pool.text(text), slots),
        Instr::ImportName(text) => {
            import_name(alloc, text, pool.text(text), facts, slots, heap)
        },
        _ => unreachable!(),
    }
}
