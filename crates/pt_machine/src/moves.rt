//! Instructions that change slots alone.
ghost use Rattle.std.specs.Prelude.{◌≡◌, true, IfOk};
ghost use Rattle.pt_machine.specs.Groups.{moves_slots};
ghost use Rattle.pt_machine.specs.Performing.{Performs};

use pt_base::Memory;
use pt_body_rows::{
    constant, copy, copy_two, jump, leave, nop, pop, return_value, rotate_three, swap,
};
use pt_code_tables::{CodeTables, Machine, Progress};
use pt_handler_rows::{caught, end_finally, end_handler, normal, rethrow};
use pt_instr::Instr;

/// Does the row of an instruction that changes slots alone.
#[tactic(auto, using(crate::proofs::RowLemmas::slots_row, crate::proofs::RowLemmas::handler_row, crate::proofs::RowLemmas::still_row, crate::proofs::RowLemmas::constant_row))]
pub fn perform_move(
    tables: &CodeTables,
    machine: &mut Machine,
    instr: Instr,
) -> Result<Progress, Memory>
    requires { moves_slots instr ≡ true }
    ensures { IfOk result (λ p. Performs tables.now instr p machine.old machine.new) }
{
    let pool = tables.pool(machine.here.hidden);
    let slots = &mut machine.here.slots;
    match instr {
        Instr::Nop => Ok(nop()),
        Instr::Const(number) => constant(pool.constant(number), slots),
        Instr::Pop => Ok(pop(slots)),
        Instr::Copy => copy(slots),
        Instr::Copy2 => copy_two(slots),
        Instr::Swap => swap(slots),
        Instr::Rot3 => rotate_three(slots),
        Instr::Jump(to) => Ok(jump(to)),
        Instr::Return => Ok(return_value(slots)),
        Instr::Leave(to) => Ok(leave(to)),
        Instr::Caught => caught(slots),
        Instr::EndHandler => Ok(end_handler(slots)),
        Instr::Rethrow => Ok(rethrow(slots)),
        Instr::Normal => normal(slots),
        Instr::EndFinally => Ok(end_finally(slots)),
        _ => unreachable!(),
    }
}
