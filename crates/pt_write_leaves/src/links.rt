//! The links of a chain of comparisons, around their right operands (Language Reference 6.10).

ghost use Rattle.std.specs.Prelude.{◌≡◌, IfOk, OnOk};
ghost use Rattle.pt_expr_forms.specs.Behind.{ends_of, link_begun, link_ended, links_ended};

use pt_assembler::{Jump, Operation, Writer};
use pt_base::{CompareOp, Line, Memory, Stack};
use pt_expr_forms::LinkEnds;
use pt_instr::Instr;
use pt_write_ops::plain;

/// A comparison whose right operand is kept for the next, which is left out where it is false.
pub fn begin_link(w: &mut Writer, operator: CompareOp, line: Line) -> Result<LinkEnds, Memory>
    ensures { IfOk result
        (λ ends. (ends ≡ ends_of w.old) × (w.new ≡ link_begun operator line.0 w.old)) }
{
    let end = w.label()?;
    let dropping = w.label()?;
    w.step(Operation::Plain(Instr::Copy))?;
    w.step(Operation::Plain(Instr::Rot3))?;
    plain(w, Instr::Compare(operator), line, false)?;
    w.act(Operation::To(Jump::IfFalseKeep, dropping), line, false)?;
    Ok(LinkEnds { end, dropping })
}

fn end_link(w: &mut Writer, ends: LinkEnds) -> Result<(), Memory>
    ensures { OnOk result (w.new ≡ link_ended ends w.old) }
{
    w.step(Operation::To(Jump::Always, ends.end))?;
    w.bind(ends.dropping);
    w.step(Operation::Plain(Instr::Swap))?;
    w.step(Operation::Plain(Instr::Pop))?;
    w.bind(ends.end);
    Ok(())
}

/// The ends of links, the innermost first.
pub fn end_links(w: &mut Writer, mut ends: Stack<LinkEnds>) -> Result<(), Memory>
    ensures { OnOk result (w.new ≡ links_ended ends w.old) }
{
    while let Some(of_link) = ends.pop() {
        end_link(w, of_link)?;
    }
    Ok(())
}
