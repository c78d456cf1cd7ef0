//! The `try` statement (Language Reference 8.4).

ghost use Rattle.std.specs.Prelude.{◌≡◌, map, OnOk};
ghost use Rattle.pt_tree.specs.Syntax.{no_handlers};
ghost use Rattle.pt_tree.specs.Fold.{chained, opt_exp};
ghost use Rattle.pt_tree.specs.StatementFold.{handler_of, stms_of};
ghost use Rattle.pt_exits.specs.Asked.{asked};
ghost use Rattle.pt_write_simple.specs.pt_stm_forms.Compound.{acts_skipped, behind_covered, behind_ensured, behind_handled, behind_handler, behind_handlers, else_ended};

use crate::places::{end_ensured, over_slot};
use crate::statements::suite_code;
use pt_assembler::{Jump, Label, Operation, Writer};
use pt_base::{Line, Memory, Pc, Text};
use pt_block_names::BlockNames;
use pt_exits::{Behind, is_needed, needed_if};
use pt_instr::Instr;
use pt_ranges::Handler as Row;
use pt_tree::{Expr, Handler, Stmt};
use pt_write_ops::plain;
use pt_write_simple::{optional_value, store_name, unbind_name};

/// Where the code of a `try` begins, and over how many slots.
#[derive(Clone, Copy, Debug, PartialEq, Eq)]
pub struct TryStart {
    pub from: u32,
    pub depth: u32,
}

/// The body of a `try` with handlers: from where to where it stands, over how many slots, and the number
/// of the first act behind it.
#[derive(Clone, Copy, Debug, PartialEq, Eq)]
pub struct TriedBody {
    pub from: u32,
    pub to: u32,
    pub depth: u32,
    pub first: u32,
}

/// What stands behind the body of a `try`, its `else` part and its handlers: its `finally` part, over the
/// completion that it goes on with, if it has one.
#[cycle(statements)]
#[tactic(auto, using(crate::proofs::Rules::tries))]
pub fn end_try(
    w: &mut Writer,
    names: &BlockNames,
    finally: &[Stmt],
    behind: Behind,
    start: TryStart,
    last: u32,
) -> Result<(), Memory>
    ensures { OnOk result (w.new ≡ behind_ensured names.now (stms_of finally.now) (asked behind)
        start.from start.depth last w.old) }
{
    if finally.len() == 0 {
        w.number_from(last);
        return Ok(());
    }
    end_ensured(w, start.from, start.depth)?;
    let place = over_slot(w)?;
    w.number_from(last);
    suite_code(w, names, finally, needed_if(is_needed(behind)))?;
    w.set_place(place);
    w.step(Operation::Plain(Instr::EndFinally))
}

/// The end of the `else` part of a `try`, behind which its handlers stand, and the row that covers its
/// body. The acts of the handlers are numbered from behind the body.
pub fn end_else(w: &mut Writer, body: TriedBody, end: Label) -> Result<(), Memory>
    ensures { OnOk result
        (w.new ≡ else_ended body.from body.to body.depth body.first end w.old) }
{
    w.step(Operation::To(Jump::Always, end))?;
    let target = Pc(w.at());
    w.row(Row {
        from: Pc(body.from),
        to: Pc(body.to),
        target,
        depth: body.depth,
        always: false,
    })?;
    w.number_from(body.first);
    Ok(())
}

/// The next acts are numbered behind so many others.
pub fn skip_acts(w: &mut Writer, count: u32) -> Result<(), Memory>
    ensures { OnOk result (w.new ≡ acts_skipped count w.old) }
{
    let next = w.next_act().checked_add(count).ok_or(Memory)?;
    w.number_from(next);
    Ok(())
}

/// Handlers one after the other; an exception that none takes is raised again.
#[cycle(statements)]
#[tactic(auto, using(pt_tree::proofs::StatementFolds::statements))]
pub fn each_handler(
    w: &mut Writer,
    names: &BlockNames,
    handlers: &[Handler],
    end: Label,
) -> Result<(), Memory>
    ensures { OnOk result (w.new ≡ behind_handlers names.now
        (chained no_handlers (map handler_of handlers.now)) end w.old) }
{
    for handler in handlers {
        handler_code(
            w,
            names,
            handler.line,
            handler.body.as_slice(),
            &handler.class,
            &handler.name,
            end,
        )?;
    }
    w.step(Operation::Plain(Instr::Rethrow))
}

/// A handler: its class, a jump to the next where it doesn't take the exception, and its statements.
#[cycle(statements)]
fn handler_code(
    w: &mut Writer,
    names: &BlockNames,
    line: Line,
    body: &[Stmt],
    class: &Option<Expr>,
    name: &Option<Text>,
    end: Label,
) -> Result<(), Memory>
    ensures { OnOk result (w.new ≡ behind_handler names.now (opt_exp class.now) name.now
        (stms_of body.now) end line.0 w.old) }
{
    let next = w.label()?;
    optional_value(w, names, class)?;
    plain(w, Instr::Match, line, false)?;
    w.step(Operation::To(Jump::IfFalse, next))?;
    handle(w, names, line, body, name)?;
    w.step(Operation::Plain(Instr::EndHandler))?;
    w.step(Operation::To(Jump::Always, end))?;
    w.bind(next);
    Ok(())
}

/// The statements of a handler that takes the exception on top; the name to which that is bound is
/// unbound behind them, whatever happens (Language Reference 8.4.1).
#[cycle(statements)]
fn handle(
    w: &mut Writer,
    names: &BlockNames,
    line: Line,
    body: &[Stmt],
    name: &Option<Text>,
) -> Result<(), Memory>
    ensures { OnOk result
        (w.new ≡ behind_handled names.now name.now (stms_of body.now) line.0 w.old) }
{
    w.step(Operation::Plain(Instr::Caught))?;
    match name {
        None => {
            w.step(Operation::Plain(Instr::Pop))?;
            let place = over_slot(w)?;
            suite_code(w, names, body, Behind::Free)?;
            w.set_place(place);
            Ok(())
        }
        Some(name) => {
            store_name(w, names, name.as_str(), line)?;
            covered(w, names, body)?;
            unbind_name(w, names, name.as_str())?;
            w.step(Operation::Plain(Instr::EndFinally))
        }
    }
}

/// Statements under a handler row that takes each completion, over the exception.
#[cycle(statements)]
fn covered(w: &mut Writer, names: &BlockNames, body: &[Stmt]) -> Result<(), Memory>
    ensures { OnOk result (w.new ≡ behind_covered names.now (stms_of body.now) w.old) }
{
    let place = over_slot(w)?;
    let from = w.at();
    let depth = w.place().depth;
    suite_code(w, names, body, Behind::Free)?;
    end_ensured(w, from, depth)?;
    w.set_place(place);
    Ok(())
}
