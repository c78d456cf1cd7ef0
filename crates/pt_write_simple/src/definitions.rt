//! Functions and classes (Language Reference 8.7, 8.8).

ghost use Rattle.std.specs.Prelude.{◌≡◌, OnOk};
ghost use Rattle.pt_tree.specs.Fold.{opt_exp, parameters_of};
ghost use Rattle.pt_tree.specs.StatementFold.{decorators_of};
ghost use Rattle.pt_stm_forms.specs.Simple.{behind_calls, behind_class, behind_decorators, behind_function, behind_named};

use crate::names::store_name;
use crate::values::{optional_value, value_code};
use pt_assembler::Writer;
use pt_base::{BlockId, Line, Memory};
use pt_block_names::BlockNames;
use pt_comp_expr::{Surroundings, function_code};
use pt_instr::Instr;
use pt_tree::{Decorator, Expr, Parameters};
use pt_write_leaves::push_captured;
use pt_write_ops::plain;

/// The code that makes a function, gives it to its decorators, and binds its name.
///
/// # Errors
///
/// As for an expression.
pub fn function_definition(
    w: &mut Writer,
    names: &BlockNames,
    line: Line,
    decorators: &[Decorator],
    block: BlockId,
    name: &str,
    parameters: &Parameters,
) -> Result<(), Memory>
    ensures { OnOk result
        (w.new ≡ behind_named names.now (decorators_of decorators.now) name.now line.0
        (behind_function names.now block.0 (parameters_of parameters.now) line.0
        (behind_decorators names.now (decorators_of decorators.now) w.old))) }
{
    decorator_values(w, names, decorators)?;
    make_function(w, names, line, block, parameters)?;
    call_decorators(w, decorators)?;
    store_name(w, names, name, line)
}

#[tactic(auto, unfolding(pt_expr_forms::specs::Behind::behind_exp))]
fn make_function(
    w: &mut Writer,
    names: &BlockNames,
    line: Line,
    block: BlockId,
    parameters: &Parameters,
) -> Result<(), Memory>
    ensures { OnOk result (w.new ≡ behind_function names.now block.0
        (parameters_of parameters.now) line.0 w.old) }
{
    let at = Surroundings { names, within: &[] };
    function_code(w, &at, line, block, parameters, false)
}

/// The code that makes a class of its base, gives it to its decorators, and binds its name.
///
/// # Errors
///
/// As for an expression.
pub fn class_definition(
    w: &mut Writer,
    names: &BlockNames,
    line: Line,
    decorators: &[Decorator],
    block: BlockId,
    name: &str,
    base: &Option<Expr>,
) -> Result<(), Memory>
    ensures { OnOk result
        (w.new ≡ behind_named names.now (decorators_of decorators.now) name.now line.0
        (behind_class names.now block.0 (opt_exp base.now) line.0
        (behind_decorators names.now (decorators_of decorators.now) w.old))) }
{
    decorator_values(w, names, decorators)?;
    make_class(w, names, line, block, base)?;
    call_decorators(w, decorators)?;
    store_name(w, names, name, line)
}

/// A class of a base, or of None where none is written.
fn make_class(
    w: &mut Writer,
    names: &BlockNames,
    line: Line,
    block: BlockId,
    base: &Option<Expr>,
) -> Result<(), Memory>
    ensures { OnOk result
        (w.new ≡ behind_class names.now block.0 (opt_exp base.now) line.0 w.old) }
{
    optional_value(w, names, base)?;
    let at = Surroundings { names, within: &[] };
    push_captured(w, &at, block)?;
    plain(w, Instr::MakeClass(block), line, false)
}

/// The values of decorators, the last on top.
fn decorator_values(
    w: &mut Writer,
    names: &BlockNames,
    decorators: &[Decorator],
) -> Result<(), Memory>
    ensures { OnOk result
        (w.new ≡ behind_decorators names.now (decorators_of decorators.now) w.old) }
{
    for decorator in decorators {
        value_code(w, names, &decorator.value, false)?;
    }
    Ok(())
}

/// The value on top is given to the decorators below it, the last one first.
fn call_decorators(w: &mut Writer, decorators: &[Decorator]) -> Result<(), Memory>
    ensures { OnOk result (w.new ≡ behind_calls (decorators_of decorators.now) w.old) }
{
    let mut left = decorators.len();
    while left > 0 {
        left -= 1;
        plain(w, Instr::Call(1), decorators[left].line, false)?;
    }
    Ok(())
}
