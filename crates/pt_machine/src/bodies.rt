//! Instructions of names of the bodies of the module and of classes.
ghost use Rattle.std.specs.Prelude.{◌≡◌, true, IfOk};
ghost use Rattle.pt_machine.specs.Groups.{names_body};
ghost use Rattle.pt_machine.specs.Performing.{Performs};

use pt_base::Memory;
use pt_body_rows::{delete_name, name, set_name};
use pt_code_tables::{CodeTables, Machine, Progress};
use pt_instr::Instr;

/// Does the row of an instruction of a name of a body.
#[tactic(auto, using(crate::proofs::BodyRows::loaded_name, crate::proofs::BodyRows::set_name))]
pub fn perform_body(
    tables: &CodeTables,
    machine: &mut Machine,
    instr: Instr,
) -> Result<Progress, Memory>
    requires { names_body instr ≡ true }
    ensures { IfOk result (λ p. Performs tables.now instr p machine.old machine.new) }
{
    let alloc = machine.alloc;
    let block = machine.here.block;
    let hidden = machine.here.hidden;
    let facts = tables.facts.get(block, hidden);
    let pool = tables.pool(hidden);
    let in_class = pool.is_class(block);
    let locals = &mut machine.here.locals;
    let own = &mut machine.here.names;
    let globals = &mut machine.frames.globals;
    let slots = &mut machine.here.slots;
    match instr {
        Instr::Name(text) => {
            let x = pool.text(text);
            let lookup = pool.builtin(text);
            name(
                alloc, hidden, in_class, text, x, lookup, facts, locals, own, globals, slots,
            )
        }
        Instr::SetName(text) => {
            let x = pool.text(text);
            set_name(alloc, in_class, text, x, facts, locals, own, globals, slots)
        }
        Instr::DelName(text) => {
            let x = pool.text(text);
            delete_name(alloc, in_class, text, x, facts, locals, own, globals)
        }
        _ => unreachable!(),
    }
}
