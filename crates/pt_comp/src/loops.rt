//! Loops (Language Reference 8.2, 8.3).

ghost use Rattle.std.specs.Prelude.{◌≡◌, IfOk, OnOk};
ghost use Rattle.pt_tree.specs.Fold.{exp_of, target_of};
ghost use Rattle.pt_tree.specs.StatementFold.{stms_of};
ghost use Rattle.pt_assembler.specs.Layout.{next_label};
ghost use Rattle.pt_write_simple.specs.pt_stm_forms.Compound.{behind_for, behind_loop_body, behind_while};

use crate::places::over_slot;
use crate::statements::suite_code;
use pt_assembler::{Exit, Jump, Label, Loop, Operation, Place, Writer};
use pt_base::{Line, Memory};
use pt_block_names::BlockNames;
use pt_exits::{needed_if, some_exits};
use pt_instr::Instr;
use pt_tree::{Expr, Stmt, Target};
use pt_write_ops::plain;
use pt_write_simple::{bind_target, value_code};

/// The code of a `while` up to its `else` part, and the label of its end.
#[cycle(statements)]
#[tactic(auto, unfolding(pt_stm_forms::specs::Compound::behind_while))]
pub fn while_loop(
    w: &mut Writer,
    names: &BlockNames,
    line: Line,
    body: &[Stmt],
    test: &Expr,
) -> Result<Label, Memory>
    ensures { IfOk result (λ end. (end ≡ next_label w.old) × (w.new ≡ behind_while names.now
        (exp_of test.now) (stms_of body.now) line.0 w.old)) }
{
    let first = w.next_act();
    let end = w.label()?;
    let otherwise = w.label()?;
    value_code(w, names, test, false)?;
    w.act(Operation::To(Jump::IfFalse, otherwise), line, false)?;
    let head = w.label()?;
    loop_body(w, names, body, end)?;
    let next = w.next_act();
    w.number_from(first);
    value_code(w, names, test, true)?;
    w.act(Operation::To(Jump::IfTrue, head), line, false)?;
    w.bind(otherwise);
    w.number_from(next);
    Ok(end)
}

/// The code of a `for` up to its `else` part, and the label of its end.
#[cycle(statements)]
#[tactic(auto, unfolding(pt_stm_forms::specs::Compound::behind_for))]
pub fn for_loop(
    w: &mut Writer,
    names: &BlockNames,
    line: Line,
    body: &[Stmt],
    target: &Target,
    iterable: &Expr,
) -> Result<Label, Memory>
    ensures { IfOk result (λ end. (end ≡ next_label w.old) × (w.new ≡ behind_for names.now
        (target_of target.now) (exp_of iterable.now) (stms_of body.now) line.0 w.old)) }
{
    let end = w.label()?;
    let otherwise = w.label()?;
    value_code(w, names, iterable, false)?;
    plain(w, Instr::Iter, line, false)?;
    let first = w.next_act();
    w.act(Operation::To(Jump::AtEnd, otherwise), line, false)?;
    let head = w.label()?;
    bind_target(w, names, target)?;
    let place = over_slot(w)?;
    loop_body(w, names, body, end)?;
    w.set_place(place);
    let next = w.next_act();
    w.number_from(first);
    w.act(Operation::To(Jump::AtEnd, otherwise), line, true)?;
    w.step(Operation::To(Jump::Always, head))?;
    w.bind(otherwise);
    w.number_from(next);
    Ok(end)
}

/// The body of a loop: a `break` goes to its end, and a `continue` behind the body.
#[cycle(statements)]
#[tactic(auto, unfolding(pt_stm_forms::specs::Compound::behind_loop_body))]
fn loop_body(
    w: &mut Writer,
    names: &BlockNames,
    body: &[Stmt],
    break_to: Label,
) -> Result<(), Memory>
    ensures { OnOk result
        (w.new ≡ behind_loop_body names.now (stms_of body.now) break_to w.old) }
{
    let place = w.place();
    let continue_to = w.label()?;
    w.set_place(Place {
        around: Some(Loop {
            break_to,
            continue_to,
        }),
        depth: place.depth,
    });
    let behind = needed_if(some_exits(Exit::Continue, body));
    suite_code(w, names, body, behind)?;
    w.set_place(place);
    w.bind(continue_to);
    Ok(())
}
