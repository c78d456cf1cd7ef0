//! The instructions of attributes, which change slots and the heap.
ghost use Rattle.std.specs.Prelude.{◌≡◌, true, IfOk};
ghost use Rattle.pt_machine.specs.Groups.{of_attributes};
ghost use Rattle.pt_machine.specs.Performing.{Performs};

use pt_attribute_rows::{attribute, delete_attribute, set_attribute};
use pt_base::Memory;
use pt_code_tables::{CodeTables, Machine, Progress};
use pt_instr::Instr;

/// Does the row of an instruction of attributes.
#[tactic(auto, using(crate::proofs::NameRows::attribute_row, crate::proofs::NameRows::named_row))]
pub fn perform_attribute(
    tables: &CodeTables,
    machine: &mut Machine,
    instr: Instr,
) -> Result<Progress, Memory>
    requires { of_attributes instr ≡ true }
    ensures { IfOk result (λ p. Performs tables.now instr p machine.old machine.new) }
{
    let pool = tables.pool(machine.here.hidden);
    let alloc = machine.alloc;
    let slots = &mut machine.here.slots;
    let heap = &mut machine.heap;
    let facts = &tables.facts;
    match instr {
        Instr::Attr(text) => attribute(alloc, text, pool.text(text), facts, slots, heap),
        Instr::SetAttr(text) => set_attribute(alloc, text, pool.text(text), slots, heap),
        Instr::DelAttr(text) => delete_attribute(alloc, text, pool.text(text), slots, heap),
        _ => unreachable!(),
    }
}
