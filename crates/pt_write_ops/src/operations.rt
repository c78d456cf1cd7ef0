//! Operations whose operand is a constant, a text or a list of names.

ghost use Rattle.std.specs.Prelude.{◌≡◌, ◌+◌, [], length, false, IfOk, OnOk};
ghost use Rattle.pt_tree.specs.declared.expression.Constant.TheVariants.{Str};
ghost use Rattle.pt_instr.specs.declared.Instr.TheVariants.{Attr, SetAttr};
ghost use Rattle.sem_control.specs.control.Turn.{function as function_of};
ghost use Rattle.pt_assembler.specs.Piece.{act, move, const, with_text, plain as plain_op};
ghost use Rattle.pt_assembler.specs.Layout.{layout};
ghost use Rattle.sem_compile.specs.emitter.ExpPiece.{null_piece};
ghost use Rattle.sem_compile.specs.emitter.Ops.{operation};

use pt_assembler::{Operation, Writer};
use pt_base::{BlockId, Line, Memory, Text};
use pt_instr::Instr;
use pt_tree::Constant;
use std::alloc::Global;

/// An act that an instruction does which names nothing of the block.
pub fn plain(w: &mut Writer, instr: Instr, line: Line, again: bool) -> Result<(), Memory>
    ensures code { OnOk result
        (w.new ≡ layout (act (plain_op instr) w.old.act line.0 again) [] w.old) }
    ensures act { OnOk result (w.new.act ≡ w.old.act + 1) }
{
    w.act(Operation::Plain(instr), line, again)
}

/// An act that gives a constant.
pub fn constant(w: &mut Writer, constant: &Constant, line: Line, again: bool) -> Result<(), Memory>
    ensures code { OnOk result
        (w.new ≡ layout (act (const constant.now) w.old.act line.0 again) [] w.old) }
    ensures act { OnOk result (w.new.act ≡ w.old.act + 1) }
{
    let number = w.constant(constant)?;
    w.act(Operation::Plain(Instr::Const(number)), line, again)
}

/// An act that gives a text.
pub fn text(
    alloc: Global,
    w: &mut Writer,
    text: &str,
    line: Line,
    again: bool,
) -> Result<(), Memory>
    ensures code { OnOk result
        (w.new ≡ layout (act (const (Str text.now)) w.old.act line.0 again) [] w.old) }
    ensures act { OnOk result (w.new.act ≡ w.old.act + 1) }
{
    let value = Constant::Str(Text::from_str(alloc, text)?);
    constant(w, &value, line, again)
}

/// None, without an act.
pub fn null(w: &mut Writer) -> Result<(), Memory>
    ensures code { OnOk result (w.new ≡ layout null_piece [] w.old) }
    ensures act { OnOk result (w.new.act ≡ w.old.act) }
{
    let number = w.constant(&Constant::None)?;
    w.step(Operation::Plain(Instr::Const(number)))
}

/// An act that gives an attribute of the object on top.
pub fn attribute(w: &mut Writer, name: &str, line: Line) -> Result<(), Memory>
    ensures code { OnOk result
        (w.new ≡ layout (act (with_text Attr name.now) w.old.act line.0 false) [] w.old) }
    ensures act { OnOk result (w.new.act ≡ w.old.act + 1) }
{
    let text = w.text(name)?;
    w.act(Operation::Plain(Instr::Attr(text)), line, false)
}

/// An act that sets an attribute of the object on top to the value below.
pub fn set_attribute(w: &mut Writer, name: &str, line: Line) -> Result<(), Memory>
    ensures code { OnOk result
        (w.new ≡ layout (act (with_text SetAttr name.now) w.old.act line.0 false) [] w.old) }
    ensures act { OnOk result (w.new.act ≡ w.old.act + 1) }
{
    let text = w.text(name)?;
    w.act(Operation::Plain(Instr::SetAttr(text)), line, false)
}

/// An act that makes a function of a block, of so many defaults, whose parameters have these names.
pub fn function(
    w: &mut Writer,
    block: BlockId,
    count: u32,
    names: &[Text],
    line: Line,
    again: bool,
) -> Result<(), Memory>
    ensures code { OnOk result (w.new ≡ layout
        (act (operation (function_of block.0 names.now) count) w.old.act line.0 again) [] w.old) }
    ensures act { OnOk result (w.new.act ≡ w.old.act + 1) }
{
    let list = w.list(names)?;
    w.act(
        Operation::Plain(Instr::MakeFunction(block, count, list)),
        line,
        again,
    )
}

/// How many operands there are. More than an instruction can name are want of memory.
pub fn operand_count(len: usize) -> Result<u32, Memory>
    ensures { IfOk result (λ n. n ≡ len) }
{
    u32::try_from(len).map_err(|_| Memory)
}
