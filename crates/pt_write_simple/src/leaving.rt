//! Statements that leave: `return`, `raise`, `assert`, `break` and `continue`
//! (Language Reference 7.3, 7.6, 7.8 to 7.10).

ghost use Rattle.std.specs.Prelude.{◌≡◌, OnOk};
ghost use Rattle.pt_tree.specs.Fold.{exp_of, opt_exp};
ghost use Rattle.pt_assembler.specs.Layout.{exit_label as exit_label_of};
ghost use Rattle.pt_stm_forms.specs.Simple.{behind_assertion, behind_exit, behind_failed, behind_returned, behind_thrown, behind_value};

use crate::values::{optional_value, value_code};
use pt_assembler::{Exit, Jump, Label, Loop, Operation, Writer};
use pt_base::{Line, Memory};
use pt_block_names::BlockNames;
use pt_instr::Instr;
use pt_tree::Expr;
use pt_write_ops::plain;

/// The code of `return`.
///
/// # Errors
///
/// As for an expression.
pub fn return_statement(
    w: &mut Writer,
    names: &BlockNames,
    line: Line,
    value: &Option<Expr>,
) -> Result<(), Memory>
    ensures { OnOk result
        (w.new ≡ behind_returned names.now (opt_exp value.now) line.0 w.old) }
{
    optional_value(w, names, value)?;
    plain(w, Instr::Return, line, false)
}

/// The code of `raise exception from cause`.
///
/// # Errors
///
/// As for an expression.
pub fn raise_statement(
    w: &mut Writer,
    names: &BlockNames,
    line: Line,
    exception: &Expr,
    cause: &Option<Expr>,
) -> Result<(), Memory>
    ensures { OnOk result (w.new ≡ behind_thrown names.now (opt_exp cause.now) line.0
        (behind_value names.now (exp_of exception.now) w.old)) }
{
    value_code(w, names, exception, false)?;
    match cause {
        None => plain(w, Instr::Raise, line, false),
        Some(cause) => {
            value_code(w, names, cause, false)?;
            plain(w, Instr::RaiseFrom, line, false)
        }
    }
}

/// The code of `assert test, message`.
///
/// # Errors
///
/// As for an expression.
pub fn assertion(
    w: &mut Writer,
    names: &BlockNames,
    line: Line,
    test: &Expr,
    message: &Option<Expr>,
) -> Result<(), Memory>
    ensures { OnOk result (w.new ≡ behind_assertion names.now (exp_of test.now)
        (opt_exp message.now) line.0 w.old) }
{
    let end = w.label()?;
    value_code(w, names, test, false)?;
    w.act(Operation::To(Jump::IfTrue, end), line, false)?;
    fail(w, names, line, message)?;
    w.bind(end);
    Ok(())
}

fn fail(
    w: &mut Writer,
    names: &BlockNames,
    line: Line,
    message: &Option<Expr>,
) -> Result<(), Memory>
    ensures { OnOk result (w.new ≡ behind_failed names.now (opt_exp message.now) line.0 w.old) }
{
    match message {
        None => plain(w, Instr::AssertFail(false), line, false),
        Some(message) => {
            value_code(w, names, message, false)?;
            plain(w, Instr::AssertFail(true), line, false)
        }
    }
}

/// The code of `break` or `continue`.
///
/// # Errors
///
/// Want of memory, or of a number of acts.
pub fn exit_statement(w: &mut Writer, exit: Exit, line: Line) -> Result<(), Memory>
    ensures { OnOk result (w.new ≡ behind_exit exit line.0 w.old) }
{
    let label = exit_label(exit, w.place().around);
    w.act(Operation::To(Jump::Leave, label), line, false)
}

/// The label that an exit goes to. (Outside of a loop nothing leaves it.)
fn exit_label(exit: Exit, around: Option<Loop>) -> Label
    ensures { result ≡ exit_label_of exit around }
{
    match (exit, around) {
        (_, None) => Label(0),
        (Exit::Break, Some(around)) => around.break_to,
        (Exit::Continue, Some(around)) => around.continue_to,
    }
}
