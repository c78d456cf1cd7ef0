//! The end of a comprehension (Language Reference 6.2.4).

ghost use Rattle.std.specs.Prelude.{◌≡◌, suc, IfOk, OnOk};
ghost use Rattle.pt_expr_forms.specs.Loops.{ended};

use pt_assembler::{Jump, Label, Operation, Writer};
use pt_base::{Line, Memory};
use pt_expr_forms::{Built, Innermost};
use pt_write_ops::plain;

/// One more loop. More than an instruction can name are want of memory.
pub fn one_more(count: u32) -> Result<u32, Memory>
    ensures { IfOk result (λ n. n ≡ suc count) }
{
    count.checked_add(1).ok_or(Memory)
}

/// The end of a comprehension, behind its item.
#[tactic(auto, unfolding(pt_expr_forms::specs::Loops::ended))]
pub fn end_comprehension(
    w: &mut Writer,
    line: Line,
    built: Built,
    innermost: Innermost,
    end: Label,
) -> Result<(), Memory>
    ensures { OnOk result (w.new ≡ ended built line.0 innermost end w.old) }
{
    plain(w, built.addition(one_more(innermost.loops)?), line, false)?;
    w.step(Operation::To(Jump::Always, innermost.head))?;
    w.bind(end);
    Ok(())
}
