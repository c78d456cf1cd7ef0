//! The code of a chain of comparisons, behind its first two operands (Language Reference 6.10).

ghost use Rattle.std.specs.Prelude.{◌≡◌, map, OnOk};
ghost use Rattle.pt_tree.specs.Syntax.{no_links};
ghost use Rattle.pt_tree.specs.Fold.{chained, link_of};
ghost use Rattle.pt_write_leaves.specs.pt_expr_forms.Behind.{behind_links};

use crate::expressions::expression;
use pt_assembler::Writer;
use pt_base::{CompareOp, Line, Memory, Stack};
use pt_instr::Instr;
use pt_tree::Comparison;
use pt_write_leaves::{Surroundings, begin_link, end_links};
use pt_write_ops::plain;

/// The code of a comparison, and of those that are chained to it.
#[cycle(expressions)]
pub fn links(
    w: &mut Writer,
    at: &Surroundings,
    line: Line,
    operator: CompareOp,
    rest: &[Comparison],
) -> Result<(), Memory>
    ensures { OnOk result (w.new ≡ behind_links at.now.names.now at.now.within.now
        (chained no_links (map link_of rest.now)) operator line.0 w.old) }
{
    let mut operator = operator;
    let mut ends = Stack::new(at.names.alloc());
    for link in rest {
        let of_link = begin_link(w, operator, line)?;
        expression(w, at, &link.right, false)?;
        ends.push(of_link)?;
        operator = link.operator;
    }
    plain(w, Instr::Compare(operator), line, false)?;
    end_links(w, ends)
}
