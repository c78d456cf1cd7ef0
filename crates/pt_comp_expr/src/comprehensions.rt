//! The code of list, set and dictionary comprehensions (Language Reference 6.2.4).

ghost use Rattle.std.specs.Prelude.{◌≡◌, map, IfOk, OnOk};
ghost use Rattle.pt_tree.specs.Fold.{clause_of};
ghost use Rattle.pt_assembler.specs.Layout.{next_label};
ghost use Rattle.pt_write_leaves.specs.pt_expr_forms.Loops.{begun, behind_begun, behind_clauses, behind_iterator, behind_turn, last_loop};

use crate::expressions::expression;
use crate::targets::target;
use pt_assembler::{Jump, Label, Operation, Writer};
use pt_base::{Line, Memory};
use pt_instr::Instr;
use pt_tree::Clause;
use pt_write_leaves::{Begun, Built, Innermost, Surroundings, one_more, renew_clauses};
use pt_write_ops::plain;

/// The iterator of a clause.
#[cycle(expressions)]
pub fn iterator(
    w: &mut Writer,
    at: &Surroundings,
    clause: &Clause,
    again: bool,
) -> Result<(), Memory>
    ensures { OnOk result (w.new ≡ behind_iterator at.now.names.now at.now.within.now
        (clause_of clause.now) again w.old) }
{
    expression(w, at, &clause.iterable, again)?;
    plain(w, Instr::Iter, clause.line, false)
}

/// The beginning of a comprehension: its first clause.
#[cycle(expressions)]
pub fn begin_comprehension(
    w: &mut Writer,
    at: &Surroundings,
    line: Line,
    built: Built,
    first: &Clause,
    rest: &[Clause],
    again: bool,
) -> Result<Begun, Memory>
    ensures { IfOk result (λ o. (o ≡ begun at.now.names.now at.now.within.now built line.0
        (clause_of first.now) (map clause_of rest.now) again w.old)
        × (w.new ≡ behind_begun at.now.names.now at.now.within.now built line.0
        (clause_of first.now) (map clause_of rest.now) again w.old)) }
{
    let end = w.label()?;
    iterator(w, at, first, again)?;
    plain(w, built.empty(), line, false)?;
    w.step(Operation::Plain(Instr::Swap))?;
    let within = renew_clauses(w, at, first, rest)?;
    let inner = Surroundings {
        names: at.names,
        within: within.as_slice(),
    };
    let head = turn(w, &inner, line, first, end)?;
    Ok(Begun { end, head, within })
}

/// The clauses behind the first.
#[cycle(expressions)]
pub fn clauses(
    w: &mut Writer,
    at: &Surroundings,
    line: Line,
    rest: &[Clause],
    head: Label,
) -> Result<Innermost, Memory>
    ensures { IfOk result (λ i. (i ≡ last_loop at.now.names.now at.now.within.now
        (map clause_of rest.now) line.0 (record { head = head; loops = 1 }) w.old)
        × (w.new ≡ behind_clauses at.now.names.now at.now.within.now (map clause_of rest.now)
        line.0 (record { head = head; loops = 1 }) w.old)) }
{
    let mut innermost = Innermost { head, loops: 1 };
    for clause in rest {
        iterator(w, at, clause, false)?;
        let head = turn(w, at, line, clause, innermost.head)?;
        innermost = Innermost {
            head,
            loops: one_more(innermost.loops)?,
        };
    }
    Ok(innermost)
}

/// A turn of a clause: its next item, which is bound to the target, and the conditions.
#[cycle(expressions)]
pub fn turn(
    w: &mut Writer,
    at: &Surroundings,
    line: Line,
    clause: &Clause,
    end: Label,
) -> Result<Label, Memory>
    ensures { IfOk result (λ head. (head ≡ next_label w.old)
        × (w.new ≡ behind_turn at.now.names.now at.now.within.now (clause_of clause.now) end
        line.0 w.old)) }
{
    let head = w.label()?;
    w.act(Operation::To(Jump::AtEnd, end), clause.line, false)?;
    target(w, at, &clause.target)?;
    for test in clause.conditions.as_slice() {
        expression(w, at, test, false)?;
        w.act(Operation::To(Jump::IfFalse, head), line, false)?;
    }
    Ok(head)
}
