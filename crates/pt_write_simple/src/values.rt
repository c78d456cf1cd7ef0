//! Expressions and targets outside of comprehensions.

ghost use Rattle.std.specs.Prelude.{◌≡◌, [], false, OnOk};
ghost use Rattle.pt_tree.specs.Syntax.{single};
ghost use Rattle.pt_tree.specs.Fold.{exp_of, opt_exp, place_node_of, target_of};
ghost use Rattle.pt_instr.specs.declared.Instr.TheVariants.{Pop};
ghost use Rattle.pt_write_leaves.specs.pt_expr_forms.Behind.{behind_exp, behind_opt, behind_target, plain_act};
ghost use Rattle.pt_stm_forms.specs.Simple.{behind_value};

use pt_assembler::Writer;
use pt_base::{Line, Memory};
use pt_block_names::BlockNames;
use pt_comp_expr::{Surroundings, expr_code, place_code, target_code};
use pt_instr::Instr;
use pt_tree::{Expr, PlaceNode, Target};
use pt_write_ops::{null, plain};

/// The code of an expression. Its first act begins a re-test where it is said so.
///
/// # Errors
///
/// Want of memory, or of a number: of acts, labels, texts or operands.
#[tactic(auto, unfolding(pt_expr_forms::specs::Behind::behind_exp))]
pub fn value_code(w: &mut Writer, names: &BlockNames, e: &Expr, again: bool) -> Result<(), Memory>
    ensures { OnOk result (w.new ≡ behind_exp names.now [] (exp_of e.now) again w.old) }
{
    let at = Surroundings { names, within: &[] };
    expr_code(w, &at, e, again)
}

/// The code of an expression that may be left out: None stands for it then.
///
/// # Errors
///
/// As for an expression.
pub fn optional_value(w: &mut Writer, names: &BlockNames, e: &Option<Expr>) -> Result<(), Memory>
    ensures { OnOk result (w.new ≡ behind_opt names.now [] (opt_exp e.now) false w.old) }
{
    match e {
        None => null(w),
        Some(e) => value_code(w, names, e, false),
    }
}

/// The code that binds the value on top to a target (Language Reference 7.2).
///
/// # Errors
///
/// As for an expression.
#[tactic(auto, unfolding(pt_expr_forms::specs::Behind::behind_target))]
pub fn bind_target(w: &mut Writer, names: &BlockNames, target: &Target) -> Result<(), Memory>
    ensures { OnOk result (w.new ≡ behind_target names.now [] (target_of target.now) w.old) }
{
    let at = Surroundings { names, within: &[] };
    target_code(w, &at, target)
}

/// The code that binds the value on top to a name, an attribute or an item.
#[tactic(auto, unfolding(pt_expr_forms::specs::Behind::behind_target))]
pub fn bind_place(
    w: &mut Writer,
    names: &BlockNames,
    line: Line,
    place: &PlaceNode,
) -> Result<(), Memory>
    ensures { OnOk result
        (w.new ≡ behind_target names.now [] (single (place_node_of place.now line.0)) w.old) }
{
    let at = Surroundings { names, within: &[] };
    place_code(w, &at, line, place)
}

/// The code of an expression whose value is dropped (Language Reference 7.1).
///
/// # Errors
///
/// As for an expression.
pub fn expression_statement(
    w: &mut Writer,
    names: &BlockNames,
    line: Line,
    value: &Expr,
) -> Result<(), Memory>
    ensures { OnOk result
        (w.new ≡ plain_act Pop line.0 false (behind_value names.now (exp_of value.now) w.old)) }
{
    value_code(w, names, value, false)?;
    plain(w, Instr::Pop, line, false)
}
