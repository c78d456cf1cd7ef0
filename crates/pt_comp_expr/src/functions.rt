//! Functions: the defaults of their parameters, and what makes them (Language Reference 6.14, 8.7).

ghost use Rattle.std.specs.Prelude.{◌≡◌, ◌+◌, map, IfOk, OnOk};
ghost use Rattle.pt_tree.specs.Syntax.{lambda, no_formals};
ghost use Rattle.pt_tree.specs.Fold.{chained, formal_of, parameters_of};
ghost use Rattle.pt_write_leaves.specs.pt_expr_forms.Behind.{behind_defaults, behind_exp, defaults_count, still};

use crate::expressions::expression;
use pt_assembler::Writer;
use pt_base::{BlockId, Line, Memory};
use pt_tree::{Parameter, Parameters};
use pt_write_leaves::{Surroundings, defaulted_names, push_captured, still_due};

/// Makes a function of a block.
#[cycle(expressions)]
pub fn function(
    w: &mut Writer,
    at: &Surroundings,
    line: Line,
    block: BlockId,
    parameters: &Parameters,
    again: bool,
) -> Result<(), Memory>
    ensures { OnOk result ((e : _) → w.new ≡ behind_exp at.now.names.now at.now.within.now
        (lambda line.0 block.0 (parameters_of parameters.now) e) again w.old) }
{
    let first = defaults(w, at, parameters.positional.as_slice(), again)?;
    let due = still_due(again, first);
    let named = defaults(w, at, parameters.keyword_only.as_slice(), due)?;
    let count = first.checked_add(named).ok_or(Memory)?;
    let names = defaulted_names(at.names, parameters)?;
    push_captured(w, at, block)?;
    let last = still_due(due, named);
    pt_write_ops::function(w, block, count, names.as_slice(), line, last)
}

/// The defaults of parameters, and how many there are.
#[cycle(expressions)]
fn defaults(
    w: &mut Writer,
    at: &Surroundings,
    parameters: &[Parameter],
    again: bool,
) -> Result<u32, Memory>
    ensures { IfOk result (λ count.
        (count ≡ defaults_count (chained no_formals (map formal_of parameters.now)))
        × (w.new ≡ behind_defaults at.now.names.now at.now.within.now
        (chained no_formals (map formal_of parameters.now)) again w.old)) }
{
    let mut count: u32 = 0;
    let mut due = again;
    for parameter in parameters {
        let given = default_of(w, at, parameter, due)?;
        due = still_due(due, given);
        count = count.checked_add(given).ok_or(Memory)?;
    }
    Ok(count)
}

/// The default of a parameter, and how many there are: one or none.
#[cycle(expressions)]
#[tactic(auto, using(pt_tree::proofs::Folds::expressions))]
fn default_of(
    w: &mut Writer,
    at: &Surroundings,
    parameter: &Parameter,
    again: bool,
) -> Result<u32, Memory>
    ensures { IfOk result (λ given. (r : _)
        → (defaults_count (formal_of parameter.now r) ≡ given + defaults_count r)
        × (behind_defaults at.now.names.now at.now.within.now (formal_of parameter.now r) again
        w.old ≡ behind_defaults at.now.names.now at.now.within.now r (still again given) w.new)) }
{
    match &parameter.default {
        None => Ok(0),
        Some(default) => {
            expression(w, at, default.get(), again)?;
            Ok(1)
        }
    }
}
