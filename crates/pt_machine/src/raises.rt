//! Instructions that raise, and that try handlers.
ghost use Rattle.std.specs.Prelude.{◌≡◌, true, IfOk};
ghost use Rattle.pt_machine.specs.Groups.{raises};
ghost use Rattle.pt_machine.specs.Performing.{Performs};

use pt_base::Memory;
use pt_code_tables::{CodeTables, Machine, Progress};
use pt_instr::Instr;
use pt_raise_rows::{assert_fail, matches, raise, raise_again, raise_from};

/// Does the row of an instruction that raises, or that tries a handler.
#[tactic(auto, using(crate::proofs::RowLemmas::heap_row, crate::proofs::RowLemmas::slots_row, crate::proofs::RowLemmas::still_row))]
pub fn perform_raise(
    tables: &CodeTables,
    machine: &mut Machine,
    instr: Instr,
) -> Result<Progress, Memory>
    requires { raises instr ≡ true }
    ensures { IfOk result (λ p. Performs tables.now instr p machine.old machine.new) }
{
    let alloc = machine.alloc;
    let slots = &mut machine.here.slots;
    let heap = &mut machine.heap;
    match instr {
        Instr::Raise => raise(alloc, slots, heap),
        Instr::RaiseFrom => raise_from(alloc, slots, heap),
        Instr::RaiseAgain => Ok(raise_again()),
        Instr::AssertFail(has_message) => Ok(assert_fail(has_message, slots)),
        Instr::Match => matches(alloc, slots, heap),
        _ => unreachable!(),
    }
}
