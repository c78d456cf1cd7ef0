//! What is done with a variable of the block (Language Reference 4.2.2).

ghost use Rattle.std.specs.Prelude.{◌≡◌, ◌+◌, [], map, false, IfOk, OnOk};
ghost use Rattle.pt_assembler.specs.Piece.{act, move};
ghost use Rattle.pt_assembler.specs.Layout.{layout, operation_of, with_operand};
ghost use Rattle.pt_block_names.specs.Named.{variable_of};
ghost use Rattle.sem_compile.specs.emitter.Ops.{load as load_op, store as store_op, renew as renew_op, push_cell as push_cell_op};
ghost use Rattle.pt_write_ops.specs.Written.{cells_piece};

use pt_assembler::{FreeUse, Operation, Writer};
use pt_base::{Line, Memory};
use pt_block_names::Variable;
use pt_instr::Instr;
use pt_scopes::Scope;

/// An act that gives the value of a variable.
pub fn load(w: &mut Writer, variable: &Variable, line: Line, again: bool) -> Result<(), Memory>
    ensures code { OnOk result (w.new ≡ layout
        (act (load_op (variable_of variable.now)) w.old.act line.0 again) [] w.old) }
    ensures act { OnOk result (w.new.act ≡ w.old.act + 1) }
{
    let operation = load_operation(w, variable)?;
    w.act(operation, line, again)
}

fn load_operation(w: &mut Writer, variable: &Variable) -> Result<Operation, Memory>
    ensures { IfOk result (λ o. (o ≡ operation_of (load_op (variable_of variable.now)) [] w.old)
        × (w.new ≡ with_operand (load_op (variable_of variable.now)) w.old)
        × (w.new.act ≡ w.old.act)) }
{
    let name = variable.name.as_str();
    match variable.scope {
        Scope::Local => Ok(Operation::Plain(Instr::Local(w.local(name)?))),
        Scope::Cell => Ok(Operation::Plain(Instr::Cell(w.cell(name)?))),
        Scope::Free => Ok(Operation::Free(FreeUse::Load, w.free(name)?)),
        Scope::Global => Ok(Operation::Plain(Instr::Global(w.text(name)?))),
        Scope::Class => Ok(Operation::Plain(Instr::Name(w.text(name)?))),
    }
}

/// An act that binds a variable to the value on top.
pub fn store(w: &mut Writer, variable: &Variable, line: Line) -> Result<(), Memory>
    ensures code { OnOk result (w.new ≡ layout
        (act (store_op (variable_of variable.now)) w.old.act line.0 false) [] w.old) }
    ensures act { OnOk result (w.new.act ≡ w.old.act + 1) }
{
    let operation = store_operation(w, variable)?;
    w.act(operation, line, false)
}

fn store_operation(w: &mut Writer, variable: &Variable) -> Result<Operation, Memory>
    ensures { IfOk result (λ o. (o ≡ operation_of (store_op (variable_of variable.now)) [] w.old)
        × (w.new ≡ with_operand (store_op (variable_of variable.now)) w.old)
        × (w.new.act ≡ w.old.act)) }
{
    let name = variable.name.as_str();
    match variable.scope {
        Scope::Local => Ok(Operation::Plain(Instr::SetLocal(w.local(name)?))),
        Scope::Cell => Ok(Operation::Plain(Instr::SetCell(w.cell(name)?))),
        Scope::Free => Ok(Operation::Free(FreeUse::Store, w.free(name)?)),
        Scope::Global => Ok(Operation::Plain(Instr::SetGlobal(w.text(name)?))),
        Scope::Class => Ok(Operation::Plain(Instr::SetName(w.text(name)?))),
    }
}

/// A variable of a comprehension is made anew. (Where it is neither local nor in a cell nothing can
/// do that, and an instruction that does nothing stands there.)
pub fn renew(w: &mut Writer, variable: &Variable) -> Result<(), Memory>
    ensures code { OnOk result
        (w.new ≡ layout (move (renew_op (variable_of variable.now))) [] w.old) }
    ensures act { OnOk result (w.new.act ≡ w.old.act) }
{
    let operation = renew_operation(w, variable)?;
    w.step(operation)
}

fn renew_operation(w: &mut Writer, variable: &Variable) -> Result<Operation, Memory>
    ensures { IfOk result (λ o. (o ≡ operation_of (renew_op (variable_of variable.now)) [] w.old)
        × (w.new ≡ with_operand (renew_op (variable_of variable.now)) w.old)
        × (w.new.act ≡ w.old.act)) }
{
    let name = variable.name.as_str();
    match variable.scope {
        Scope::Local => Ok(Operation::Plain(Instr::FreshLocal(w.local(name)?))),
        Scope::Cell => Ok(Operation::Plain(Instr::FreshCell(w.cell(name)?))),
        Scope::Free => Ok(Operation::Plain(Instr::Nop)),
        Scope::Global => Ok(Operation::Plain(Instr::Nop)),
        Scope::Class => Ok(Operation::Plain(Instr::Nop)),
    }
}

fn cell_operation(w: &mut Writer, variable: &Variable) -> Result<Operation, Memory>
    ensures { IfOk result (λ o. (o ≡ operation_of (push_cell_op (variable_of variable.now)) [] w.old)
        × (w.new ≡ with_operand (push_cell_op (variable_of variable.now)) w.old)
        × (w.new.act ≡ w.old.act)) }
{
    let name = variable.name.as_str();
    match variable.scope {
        Scope::Local => Ok(Operation::Plain(Instr::Nop)),
        Scope::Cell => Ok(Operation::Plain(Instr::PushCell(w.cell(name)?))),
        Scope::Free => Ok(Operation::Free(FreeUse::Push, w.free(name)?)),
        Scope::Global => Ok(Operation::Plain(Instr::Nop)),
        Scope::Class => Ok(Operation::Plain(Instr::Nop)),
    }
}

fn push_cell(w: &mut Writer, variable: &Variable) -> Result<(), Memory>
    ensures code { OnOk result
        (w.new ≡ layout (move (push_cell_op (variable_of variable.now))) [] w.old) }
    ensures act { OnOk result (w.new.act ≡ w.old.act) }
{
    let operation = cell_operation(w, variable)?;
    w.step(operation)
}

/// The cells of variables, the last on top. (Where one is in no cell, an instruction that does nothing
/// stands there.)
pub fn push_cells(w: &mut Writer, variables: &[Variable]) -> Result<(), Memory>
    ensures code { OnOk result
        (w.new ≡ layout (cells_piece (map variable_of variables.now)) [] w.old) }
    ensures act { OnOk result (w.new.act ≡ w.old.act) }
{
    for variable in variables {
        push_cell(w, variable)?;
    }
    Ok(())
}
