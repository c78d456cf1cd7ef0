//! Instructions that enter context managers and leave them.
ghost use Rattle.std.specs.Prelude.{◌≡◌, true, IfOk};
ghost use Rattle.pt_machine.specs.Groups.{manages};
ghost use Rattle.pt_machine.specs.Performing.{Performs};

use pt_base::Memory;
use pt_code_tables::{CodeTables, Machine, Progress};
use pt_instr::Instr;
use pt_manager_rows::{enter, exit};

/// Does the row of an instruction by which a context manager is entered or left.
#[tactic(auto, using(crate::proofs::CallRows::operated))]
pub fn perform_manager(
    tables: &CodeTables,
    machine: &mut Machine,
    instr: Instr,
) -> Result<Progress, Memory>
    requires { manages instr ≡ true }
    ensures { IfOk result (λ p. Performs tables.now instr p machine.old machine.new) }
{
    let alloc = machine.alloc;
    let facts = &tables.facts;
    let cells = &mut machine.frames.cells;
    let slots = &mut machine.here.slots;
    let heap = &mut machine.heap;
    match instr {
        Instr::Enter => enter(alloc, facts, cells, slots, heap),
        Instr::Exit => exit(alloc, facts, cells, slots, heap),
        _ => unreachable!(),
    }
}
