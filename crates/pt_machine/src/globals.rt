//! Instructions of names of the module.
ghost use Rattle.std.specs.Prelude.{◌≡◌, true, IfOk};
ghost use Rattle.pt_machine.specs.Groups.{names_global};
ghost use Rattle.pt_machine.specs.Performing.{Performs};

use pt_base::Memory;
use pt_body_rows::{delete_global, global, set_global};
use pt_code_tables::{CodeTables, Machine, Progress};
use pt_instr::Instr;

/// Does the row of an instruction of a name of the module.
#[tactic(auto, using(crate::proofs::NameRows::global_row, crate::proofs::NameRows::load_row))]
pub fn perform_global(
    tables: &CodeTables,
    machine: &mut Machine,
    instr: Instr,
) -> Result<Progress, Memory>
    requires { names_global instr ≡ true }
    ensures { IfOk result (λ p. Performs tables.now instr p machine.old machine.new) }
{
    let alloc = machine.alloc;
    let hidden = machine.here.hidden;
    let pool = tables.pool(hidden);
    let globals = &mut machine.frames.globals;
    let slots = &mut machine.here.slots;
    match instr {
        Instr::Global(text) => global(
            alloc,
            hidden,
            text,
            pool.text(text),
            pool.builtin(text),
            globals,
            slots,
        ),
        Instr::SetGlobal(text) => set_global(alloc, text, pool.text(text), globals, slots),
        Instr::DelGlobal(text) => delete_global(alloc, text, pool.text(text), globals),
        _ => unreachable!(),
    }
}
