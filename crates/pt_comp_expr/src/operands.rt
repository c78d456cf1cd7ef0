//! The code of operands that stand one behind the other.

ghost use Rattle.std.specs.Prelude.{◌≡◌, map, IfOk, OnOk};
ghost use Rattle.pt_tree.specs.Syntax.{dict, no_args, no_entries};
ghost use Rattle.pt_tree.specs.Fold.{all_of, argument_of, chained, entry_of, exp_of, opt_exp};
ghost use Rattle.pt_write_leaves.specs.pt_expr_forms.Behind.{behind_args, behind_exp, behind_operands, behind_opt, display_of, opt_count, still};

use crate::expressions::expression;
use pt_assembler::{Jump, Label, Operation, Writer};
use pt_base::{Boxed, Line, Memory};
use pt_instr::Instr;
use pt_tree::{Argument, Entry, Expr};
use pt_write_leaves::{Display, Surroundings, still_due};
use pt_write_ops::{null, operand_count, plain};

/// Items from left to right, and what they are put into (Language Reference 6.2.5, 6.2.6, 6.15).
#[cycle(expressions)]
pub fn display_code(
    w: &mut Writer,
    at: &Surroundings,
    line: Line,
    display: Display,
    items: &[Expr],
    again: bool,
) -> Result<(), Memory>
    ensures { OnOk result (w.new ≡ behind_exp at.now.names.now at.now.within.now
        (display_of display line.0 (all_of (map exp_of items.now))) again w.old) }
{
    let count = operand_count(items.len())?;
    let mut due = again;
    for item in items {
        expression(w, at, item, due)?;
        due = false;
    }
    plain(w, display.instr(count), line, still_due(again, count))
}

/// Keys, each with its value behind it, and the dictionary of them (Language Reference 6.2.7).
#[cycle(expressions)]
pub fn dictionary(
    w: &mut Writer,
    at: &Surroundings,
    line: Line,
    entries: &[Entry],
    again: bool,
) -> Result<(), Memory>
    ensures { OnOk result (w.new ≡ behind_exp at.now.names.now at.now.within.now
        (dict line.0 (chained no_entries (map entry_of entries.now))) again w.old) }
{
    let count = operand_count(entries.len())?;
    let mut due = again;
    for entry in entries {
        expression(w, at, &entry.key, due)?;
        expression(w, at, &entry.value, false)?;
        due = false;
    }
    plain(w, Instr::Dict(count), line, still_due(again, count))
}

/// An expression that need not be there, with None in its place, and whether the mark of a re-test is
/// still due behind it.
#[cycle(expressions)]
#[tactic(auto, using(pt_tree::proofs::Folds::expressions))]
pub fn optional(
    w: &mut Writer,
    at: &Surroundings,
    e: &Option<Boxed<Expr>>,
    again: bool,
) -> Result<bool, Memory>
    ensures { IfOk result (λ due. (due ≡ still again (opt_count (opt_exp e.now)))
        × (w.new ≡ behind_opt at.now.names.now at.now.within.now (opt_exp e.now) again w.old)) }
{
    match e {
        None => {
            null(w)?;
            Ok(again)
        }
        Some(e) => {
            expression(w, at, e.get(), again)?;
            Ok(false)
        }
    }
}

/// Operands of an `and` or `or`, each behind a jump to the end (Language Reference 6.11).
#[cycle(expressions)]
pub fn operands(
    w: &mut Writer,
    at: &Surroundings,
    line: Line,
    jump: Jump,
    rest: &[Expr],
    end: Label,
) -> Result<(), Memory>
    ensures { OnOk result (w.new ≡ behind_operands at.now.names.now at.now.within.now jump
        (all_of (map exp_of rest.now)) end line.0 w.old) }
{
    for operand in rest {
        w.act(Operation::To(jump, end), line, false)?;
        expression(w, at, operand, false)?;
    }
    Ok(())
}

/// The arguments of a call (Language Reference 6.3.4).
#[cycle(expressions)]
pub fn arguments(
    w: &mut Writer,
    at: &Surroundings,
    line: Line,
    arguments: &[Argument],
) -> Result<(), Memory>
    ensures { OnOk result (w.new ≡ behind_args at.now.names.now at.now.within.now
        (chained no_args (map argument_of arguments.now)) line.0 w.old) }
{
    for each in arguments {
        argument(w, at, line, each)?;
    }
    Ok(())
}

#[cycle(expressions)]
#[tactic(auto, using(pt_tree::proofs::Folds::expressions))]
fn argument(
    w: &mut Writer,
    at: &Surroundings,
    line: Line,
    argument: &Argument,
) -> Result<(), Memory>
    ensures { OnOk result ((r : _) → behind_args at.now.names.now at.now.within.now
        (argument_of argument.now r) line.0 w.old
        ≡ behind_args at.now.names.now at.now.within.now r line.0 w.new) }
{
    match argument {
        Argument::Positional(value) => expression(w, at, value, false),
        Argument::Named { value, .. } => expression(w, at, value, false),
        Argument::Spread(value) => {
            expression(w, at, value, false)?;
            plain(w, Instr::Spread, line, false)
        }
        Argument::SpreadNamed(value) => {
            expression(w, at, value, false)?;
            plain(w, Instr::SpreadMap, line, false)
        }
    }
}
