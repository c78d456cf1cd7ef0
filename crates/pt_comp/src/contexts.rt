//! The `with` statement (Language Reference 8.5).

ghost use Rattle.std.specs.Prelude.{◌≡◌, [], option_map, IfOk, OnOk};
ghost use Rattle.pt_tree.specs.Fold.{exp_of, target_of};
ghost use Rattle.pt_tree.specs.StatementFold.{items_of, stms_of};
ghost use Rattle.pt_write_simple.specs.pt_stm_forms.Compound.{behind_all_left, behind_entered, behind_item, behind_items, behind_left, behind_taken, open_context};

use crate::places::{end_ensured, over_slot};
use crate::statements::suite_code;
use pt_assembler::{Operation, Writer};
use pt_base::{Line, Memory, Stack};
use pt_block_names::BlockNames;
use pt_exits::Behind;
use pt_instr::Instr;
use pt_tree::{Expr, Stmt, Target, WithItem};
use pt_write_ops::plain;
use pt_write_simple::{OpenContext, bind_target, value_code};

/// The code of `with items: body`: items are entered from the first on, and left from the last on.
#[cycle(statements)]
pub fn with_statement(
    w: &mut Writer,
    names: &BlockNames,
    body: &[Stmt],
    items: &[WithItem],
) -> Result<(), Memory>
    ensures { OnOk result
        (w.new ≡ behind_items names.now (items_of items.now) (stms_of body.now) [] w.old) }
{
    let mut entered = Stack::new(names.alloc());
    for item in items {
        let context = enter(w, names, item.line, &item.context, &item.target)?;
        entered.push(context)?;
    }
    suite_code(w, names, body, Behind::Free)?;
    leave_all(w, entered)
}

/// An item is entered, and what that gives goes to its target.
fn enter(
    w: &mut Writer,
    names: &BlockNames,
    line: Line,
    context: &Expr,
    target: &Option<Target>,
) -> Result<OpenContext, Memory>
    ensures { IfOk result (λ c.
        (c ≡ open_context line.0 (behind_entered names.now (exp_of context.now) line.0 w.old))
        × (w.new ≡ behind_item names.now (exp_of context.now) (option_map target_of target.now)
        line.0 w.old)) }
{
    value_code(w, names, context, false)?;
    plain(w, Instr::Enter, line, false)?;
    let place = over_slot(w)?;
    let from = w.at();
    take(w, names, target)?;
    Ok(OpenContext { line, from, place })
}

/// The value on top goes to a target, or is dropped.
fn take(w: &mut Writer, names: &BlockNames, target: &Option<Target>) -> Result<(), Memory>
    ensures { OnOk result
        (w.new ≡ behind_taken names.now (option_map target_of target.now) w.old) }
{
    match target {
        None => w.step(Operation::Plain(Instr::Pop)),
        Some(target) => bind_target(w, names, target),
    }
}

fn leave_all(w: &mut Writer, mut entered: Stack<OpenContext>) -> Result<(), Memory>
    ensures { OnOk result (w.new ≡ behind_all_left entered w.old) }
{
    while let Some(context) = entered.pop() {
        leave(w, context)?;
    }
    Ok(())
}

#[tactic(auto, unfolding(pt_stm_forms::specs::Compound::behind_left))]
fn leave(w: &mut Writer, context: OpenContext) -> Result<(), Memory>
    ensures { OnOk result (w.new ≡ behind_left context w.old) }
{
    let depth = context.place.depth.checked_add(1).ok_or(Memory)?;
    end_ensured(w, context.from, depth)?;
    w.set_place(context.place);
    plain(w, Instr::Exit, context.line, false)?;
    w.step(Operation::Plain(Instr::EndFinally))
}
