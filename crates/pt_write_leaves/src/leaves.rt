//! What stands at the end of expressions: names, and operations behind their operands.

ghost use Rattle.std.specs.Prelude.{◌≡◌, [], map, false, OnOk};
ghost use Rattle.pt_tree.specs.Syntax.{name, no_args};
ghost use Rattle.pt_tree.specs.Fold.{argument_of, chained, target_of, targets_of};
ghost use Rattle.sem_control.specs.control.Expressions.{roles as roles_in};
ghost use Rattle.sem_control.specs.control.Statements.{count as count_of, star_of};
ghost use Rattle.pt_assembler.specs.Piece.{act, with_text};
ghost use Rattle.pt_assembler.specs.Layout.{layout};
ghost use Rattle.pt_write_ops.specs.sem_compile.emitter.ExpPiece.{unpack_op};
ghost use Rattle.pt_write_ops.specs.sem_compile.emitter.Ops.{call as call_op, store as store_op};
ghost use Rattle.pt_instr.specs.declared.Instr.TheVariants.{Attr, SetAttr, Delegate, Iter, MakeGenerator};
ghost use Rattle.pt_write_ops.specs.Written.{cells_piece};
ghost use Rattle.pt_expr_forms.specs.Behind.{behind_exp, joined, known, no_value, numbers, plain_act};

use crate::surroundings::Surroundings;
use pt_assembler::Writer;
use pt_base::{BlockId, Line, Memory};
use pt_instr::Instr;
use pt_tree::{Argument, Target};
use pt_write_ops::{
    attribute, call, load, null, plain, push_cells, roles, set_attribute, store, unpacking,
};

/// The value of a name.
pub fn name_code(
    w: &mut Writer,
    at: &Surroundings,
    x: &str,
    line: Line,
    again: bool,
) -> Result<(), Memory>
    ensures { OnOk result
        (w.new ≡ behind_exp at.now.names.now at.now.within.now (name line.0 x.now) again w.old) }
{
    let variable = at.names.variable(at.within, x)?;
    load(w, &variable, line, again)
}

/// A name is bound to the value on top.
pub fn bind_name(w: &mut Writer, at: &Surroundings, x: &str, line: Line) -> Result<(), Memory>
    ensures { OnOk result (w.new ≡ layout (act (store_op
        ((known at.now.names.now).variable (numbers at.now.within.now) x.now)) w.old.act line.0
        false) [] w.old) }
{
    let variable = at.names.variable(at.within, x)?;
    store(w, &variable, line)
}

/// An attribute of the object on top.
pub fn get_attribute(w: &mut Writer, at: &Surroundings, x: &str, line: Line) -> Result<(), Memory>
    ensures { OnOk result (w.new ≡ layout
        (act (with_text Attr ((known at.now.names.now).spelled x.now)) w.old.act line.0 false) []
        w.old) }
{
    let name = at.names.spelled(x)?;
    attribute(w, name.as_str(), line)
}

/// An attribute of the object on top is set to the value below.
pub fn bind_attribute(w: &mut Writer, at: &Surroundings, x: &str, line: Line) -> Result<(), Memory>
    ensures { OnOk result (w.new ≡ layout
        (act (with_text SetAttr ((known at.now.names.now).spelled x.now)) w.old.act line.0 false) []
        w.old) }
{
    let name = at.names.spelled(x)?;
    set_attribute(w, name.as_str(), line)
}

/// The value on top is unpacked for targets.
pub fn unpack(w: &mut Writer, targets: &[Target], line: Line) -> Result<(), Memory>
    ensures { OnOk result (w.new ≡ layout
        (act (unpack_op (count_of (targets_of (map target_of targets.now)))
        (star_of (targets_of (map target_of targets.now)))) w.old.act line.0 false) [] w.old) }
{
    let instr = unpacking(targets)?;
    plain(w, instr, line, false)
}

/// The call behind its arguments.
pub fn call_code(
    w: &mut Writer,
    at: &Surroundings,
    arguments: &[Argument],
    line: Line,
) -> Result<(), Memory>
    ensures { OnOk result (w.new ≡ layout
        (act (call_op (roles_in (known at.now.names.now).spelled
        (chained no_args (map argument_of arguments.now)))) w.old.act line.0 false) [] w.old) }
{
    let roles = roles(at.names, arguments)?;
    call(at.names.alloc(), w, roles.as_slice(), line)
}

/// The cells that a block in it takes along.
pub fn push_captured(w: &mut Writer, at: &Surroundings, block: BlockId) -> Result<(), Memory>
    ensures { OnOk result (w.new ≡ layout
        (cells_piece ((known at.now.names.now).captured block.0)) [] w.old) }
{
    let variables = at.names.captured(block)?;
    push_cells(w, variables.as_slice())
}

/// A generator of a block, over the iterator on top.
pub fn make_generator(
    w: &mut Writer,
    at: &Surroundings,
    block: BlockId,
    line: Line,
) -> Result<(), Memory>
    ensures { OnOk result (w.new ≡ plain_act (MakeGenerator block) line.0 false (layout
        (cells_piece ((known at.now.names.now).captured block.0)) [] w.old)) }
{
    push_captured(w, at, block)?;
    plain(w, Instr::MakeGenerator(block), line, false)
}

/// The values of what can be iterated over, on top, are yielded.
pub fn delegate(w: &mut Writer, line: Line) -> Result<(), Memory>
    ensures { OnOk result (w.new ≡ plain_act Delegate line.0 false
        (no_value (plain_act Iter line.0 false w.old))) }
{
    plain(w, Instr::Iter, line, false)?;
    null(w)?;
    plain(w, Instr::Delegate, line, false)
}

/// So many parts of a spec are joined; none are None.
pub fn join(w: &mut Writer, count: u32, line: Line) -> Result<(), Memory>
    ensures { OnOk result (w.new ≡ joined count line.0 w.old) }
{
    match count {
        0 => null(w),
        1 => Ok(()),
        _ => plain(w, Instr::Join(count), line, false),
    }
}
