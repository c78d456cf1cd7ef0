//! Names that statements bind and unbind, and attributes of the object on top.

ghost use Rattle.std.specs.Prelude.{◌≡◌, [], false, IfOk, OnOk};
ghost use Rattle.pt_assembler.specs.Piece.{act, move, ◌▸◌};
ghost use Rattle.pt_assembler.specs.Layout.{layout, operation_of, with_operand};
ghost use Rattle.pt_block_names.specs.Named.{variable_of};
ghost use Rattle.pt_write_ops.specs.sem_compile.emitter.ExpPiece.{null_piece};
ghost use Rattle.pt_write_ops.specs.sem_compile.emitter.Ops.{store as store_op};
ghost use Rattle.pt_write_ops.specs.sem_compile.stm_pieces.StmPiece.{delete as delete_op};
ghost use Rattle.pt_stm_forms.specs.Simple.{behind_delete, behind_delete_attribute, behind_store, behind_unbinding};

use pt_assembler::{FreeUse, Operation, Writer};
use pt_base::{Line, Memory};
use pt_block_names::{BlockNames, Variable};
use pt_comp_expr::Surroundings;
use pt_instr::Instr;
use pt_scopes::Scope;
use pt_write_leaves::bind_name;
use pt_write_ops::null;

/// An act that binds a name to the value on top.
///
/// # Errors
///
/// Want of memory, or of a number: of acts, texts or operands.
#[tactic(auto, unfolding(pt_stm_forms::specs::Simple::behind_store))]
pub fn store_name(w: &mut Writer, names: &BlockNames, name: &str, line: Line) -> Result<(), Memory>
    ensures { OnOk result (w.new ≡ behind_store names.now name.now line.0 w.old) }
{
    let at = Surroundings { names, within: &[] };
    bind_name(w, &at, name, line)
}

/// An act that unbinds a name.
#[tactic(auto, unfolding(pt_stm_forms::specs::Simple::behind_delete))]
pub fn delete_name(w: &mut Writer, names: &BlockNames, name: &str, line: Line) -> Result<(), Memory>
    ensures { OnOk result (w.new ≡ behind_delete names.now name.now line.0 w.old) }
{
    let variable = names.variable(&[], name)?;
    delete(w, &variable, line)
}

fn delete(w: &mut Writer, variable: &Variable, line: Line) -> Result<(), Memory>
    ensures { OnOk result (w.new ≡ layout
        (act (delete_op (variable_of variable.now)) w.old.act line.0 false) [] w.old) }
{
    let operation = delete_operation(w, variable)?;
    w.act(operation, line, false)
}

fn delete_operation(w: &mut Writer, variable: &Variable) -> Result<Operation, Memory>
    ensures { IfOk result (λ o. (o ≡ operation_of (delete_op (variable_of variable.now)) [] w.old)
        × (w.new ≡ with_operand (delete_op (variable_of variable.now)) w.old)
        × (w.new.act ≡ w.old.act)) }
{
    let name = variable.name.as_str();
    match variable.scope {
        Scope::Local => Ok(Operation::Plain(Instr::DelLocal(w.local(name)?))),
        Scope::Cell => Ok(Operation::Plain(Instr::DelCell(w.cell(name)?))),
        Scope::Free => Ok(Operation::Free(FreeUse::Delete, w.free(name)?)),
        Scope::Global => Ok(Operation::Plain(Instr::DelGlobal(w.text(name)?))),
        Scope::Class => Ok(Operation::Plain(Instr::DelName(w.text(name)?))),
    }
}

fn store_operation(w: &mut Writer, variable: &Variable) -> Result<Operation, Memory>
    ensures { IfOk result (λ o. (o ≡ operation_of (store_op (variable_of variable.now)) [] w.old)
        × (w.new ≡ with_operand (store_op (variable_of variable.now)) w.old)
        × (w.new.act ≡ w.old.act)) }
{
    let name = variable.name.as_str();
    match variable.scope {
        Scope::Local => Ok(Operation::Plain(Instr::SetLocal(w.local(name)?))),
        Scope::Cell => Ok(Operation::Plain(Instr::SetCell(w.cell(name)?))),
        Scope::Free => Ok(Operation::Free(FreeUse::Store, w.free(name)?)),
        Scope::Global => Ok(Operation::Plain(Instr::SetGlobal(w.text(name)?))),
        Scope::Class => Ok(Operation::Plain(Instr::SetName(w.text(name)?))),
    }
}

/// A variable is bound to None and unbound, without an act.
fn unbind(w: &mut Writer, variable: &Variable) -> Result<(), Memory>
    ensures { OnOk result (w.new ≡ layout (null_piece
        ▸ move (store_op (variable_of variable.now))
        ▸ move (delete_op (variable_of variable.now))) [] w.old) }
{
    null(w)?;
    let binding = store_operation(w, variable)?;
    w.step(binding)?;
    let unbinding = delete_operation(w, variable)?;
    w.step(unbinding)
}

/// A name is bound to None and unbound, without an act: so a handler ends that has bound it
/// (Language Reference 8.4.1).
///
/// # Errors
///
/// Want of memory, or of a number of texts or operands.
#[tactic(auto, unfolding(pt_stm_forms::specs::Simple::behind_unbinding))]
pub fn unbind_name(w: &mut Writer, names: &BlockNames, name: &str) -> Result<(), Memory>
    ensures { OnOk result (w.new ≡ behind_unbinding names.now name.now w.old) }
{
    let variable = names.variable(&[], name)?;
    unbind(w, &variable)
}

/// An act that deletes an attribute of the object on top.
pub fn delete_attribute(
    w: &mut Writer,
    names: &BlockNames,
    name: &str,
    line: Line,
) -> Result<(), Memory>
    ensures { OnOk result (w.new ≡ behind_delete_attribute names.now name.now line.0 w.old) }
{
    let spelling = names.spelled(name)?;
    let text = w.text(spelling.as_str())?;
    w.act(Operation::Plain(Instr::DelAttr(text)), line, false)
}
