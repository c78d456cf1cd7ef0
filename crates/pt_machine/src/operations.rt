//! Instructions of operators and of tests.
ghost use Rattle.std.specs.Prelude.{◌≡◌, true, IfOk};
ghost use Rattle.pt_machine.specs.Groups.{operates};
ghost use Rattle.pt_machine.specs.Performing.{Performs};

use pt_base::Memory;
use pt_code_tables::{CodeTables, Machine, Progress};
use pt_instr::Instr;
use pt_operation_rows::{
    binary, compare, in_place, jump_if, jump_if_keep, jump_unless, jump_unless_keep, not, unary,
};

/// Does the row of an instruction of an operator or of a test.
#[tactic(auto, using(crate::proofs::CallRows::operated, crate::proofs::CallRows::called))]
pub fn perform_operation(
    tables: &CodeTables,
    machine: &mut Machine,
    instr: Instr,
) -> Result<Progress, Memory>
    requires { operates instr ≡ true }
    ensures { IfOk result (λ p. Performs tables.now instr p machine.old machine.new) }
{
    let alloc = machine.alloc;
    let facts = &tables.facts;
    let here = facts.get(machine.here.block, machine.here.hidden);
    let cells = &mut machine.frames.cells;
    let slots = &mut machine.here.slots;
    let heap = &mut machine.heap;
    match instr {
        Instr::Unary(op) => unary(
            alloc,
            op,
            facts,
            here,
            &machine.here.locals,
            &machine.here.cells,
            &machine.here.names,
            cells,
            slots,
            heap,
        ),
        Instr::Not => not(alloc, facts, cells, slots, heap),
        Instr::Binary(op) => binary(alloc, op, facts, cells, slots, heap),
        Instr::InPlace(op) => in_place(alloc, op, facts, cells, slots, heap),
        Instr::Compare(op) => compare(alloc, op, facts, cells, slots, heap),
        Instr::JumpIf(to) => jump_if(alloc, to, facts, cells, slots, heap),
        Instr::JumpUnless(to) => jump_unless(alloc, to, facts, cells, slots, heap),
        Instr::JumpIfKeep(to) => jump_if_keep(alloc, to, facts, cells, slots, heap),
        Instr::JumpUnlessKeep(to) => jump_unless_keep(alloc, to, facts, cells, slots, heap),
        _ => unreachable!(),
    }
}
