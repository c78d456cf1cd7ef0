//! The instruction at a place, by its group.
ghost use Rattle.std.specs.Prelude.{◌≡◌, IfOk};
ghost use Rattle.pt_machine.specs.Performing.{Performs};

use crate::attributes::perform_attribute;
use crate::bodies::perform_body;
use crate::calls::perform_call;
use crate::cells::perform_cell;
use crate::containers::perform_container;
use crate::globals::perform_global;
use crate::imports::perform_import;
use crate::locals::perform_local;
use crate::managers::perform_manager;
use crate::moves::perform_move;
use crate::operations::perform_operation;
use crate::raises::perform_raise;
use pt_base::Memory;
use pt_code_tables::{CodeTables, Machine, Progress, not_supported};
use pt_instr::Instr;

/// Does the row of an instruction that stands at the place of the newest activation.
///
/// # Errors
///
/// `Memory` for want of it.
#[tactic(auto, using(crate::proofs::RowLemmas::outside_row))]
pub fn perform(tables: &CodeTables, machine: &mut Machine, instr: Instr) -> Result<Progress, Memory>
    ensures { IfOk result (λ p. Performs tables.now instr p machine.old machine.new) }
{
    match instr {
        Instr::Local(_) | Instr::SetLocal(_) | Instr::DelLocal(_) | Instr::FreshLocal(_) => {
            perform_local(tables, machine, instr)
        }
        Instr::Nop
        | Instr::Const(_)
        | Instr::Pop
        | Instr::Copy
        | Instr::Copy2
        | Instr::Swap
        | Instr::Rot3
        | Instr::Jump(_)
        | Instr::Return
        | Instr::Leave(_)
        | Instr::Caught
        | Instr::EndHandler
        | Instr::Rethrow
        | Instr::Normal
        | Instr::EndFinally => { perform_move(tables, machine, instr) }
        Instr::Unary(_)
        | Instr::Not
        | Instr::Binary(_)
        | Instr::InPlace(_)
        | Instr::Compare(_)
        | Instr::JumpIf(_)
        | Instr::JumpUnless(_)
        | Instr::JumpIfKeep(_)
        | Instr::JumpUnlessKeep(_) => perform_operation(tables, machine, instr),
        Instr::Item
        | Instr::SetItem
        | Instr::DelItem
        | Instr::Slice
        | Instr::Tuple(_)
        | Instr::List(_)
        | Instr::Set(_)
        | Instr::Dict(_)
        | Instr::ListAdd(_)
        | Instr::SetAdd(_)
        | Instr::DictAdd(_)
        | Instr::Format(_)
        | Instr::Join(_)
        | Instr::Unpack(_)
        | Instr::UnpackStar(_, _)
        | Instr::Spread
        | Instr::SpreadMap
        | Instr::Iter
        | Instr::Next(_) => perform_container(tables, machine, instr),
        Instr::Attr(_) | Instr::SetAttr(_) | Instr::DelAttr(_) => {
            perform_attribute(tables, machine, instr)
        }
        Instr::Import(_) | Instr::ImportName(_) => perform_import(tables, machine, instr),
        Instr::Global(_) | Instr::SetGlobal(_) | Instr::DelGlobal(_) => {
            perform_global(tables, machine, instr)
        }
        Instr::Cell(_)
        | Instr::SetCell(_)
        | Instr::DelCell(_)
        | Instr::FreshCell(_)
        | Instr::PushCell(_) => perform_cell(tables, machine, instr),
        Instr::Name(_) | Instr::SetName(_) | Instr::DelName(_) => {
            perform_body(tables, machine, instr)
        }
        Instr::Call(_)
        | Instr::CallKw(_, _)
        | Instr::CallSpread(_, _)
        | Instr::MakeFunction(_, _, _)
        | Instr::MakeClass(_) => perform_call(tables, machine, instr),
        Instr::Raise | Instr::RaiseFrom | Instr::RaiseAgain | Instr::AssertFail(_) | Instr::Match =>
            perform_raise(tables, machine, instr),
        Instr::Enter | Instr::Exit => perform_manager(tables, machine, instr),
        _ => Ok(not_supported()),
    }
}
