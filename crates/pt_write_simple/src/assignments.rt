//! Assignments (Language Reference 7.2).

ghost use Rattle.std.specs.Prelude.{◌≡◌, map, OnOk};
ghost use Rattle.pt_tree.specs.Fold.{exp_of, opt_exp, place_of, target_of, targets_of};
ghost use Rattle.pt_stm_forms.specs.Simple.{behind_annotated, behind_assigned, behind_augmented, behind_each, behind_present, behind_put_back, behind_value, copied_for};

use crate::names::store_name;
use crate::values::{bind_place, bind_target, value_code};
use pt_assembler::{Operation, Writer};
use pt_base::{BinOp, Line, Memory};
use pt_block_names::BlockNames;
use pt_comp_expr::Surroundings;
use pt_instr::Instr;
use pt_tree::{Expr, Place, PlaceNode, Target};
use pt_write_leaves::{bind_attribute, get_attribute, name_code};
use pt_write_ops::plain;

/// The code of `targets = value`.
///
/// # Errors
///
/// As for an expression.
pub fn assignment(
    w: &mut Writer,
    names: &BlockNames,
    targets: &[Target],
    value: &Expr,
) -> Result<(), Memory>
    ensures { OnOk result (w.new ≡ behind_assigned names.now
        (targets_of (map target_of targets.now)) (behind_value names.now (exp_of value.now) w.old)) }
{
    value_code(w, names, value, false)?;
    assign(w, names, targets)
}

/// The value on top goes to each of the targets; without one it is dropped.
#[tactic(auto, using(crate::proofs::Rules::assignments))]
fn assign(w: &mut Writer, names: &BlockNames, targets: &[Target]) -> Result<(), Memory>
    ensures { OnOk result
        (w.new ≡ behind_assigned names.now (targets_of (map target_of targets.now)) w.old) }
{
    match targets.first() {
        None => w.step(Operation::Plain(Instr::Pop)),
        Some(_) => assign_each(w, names, targets),
    }
}

#[tactic(auto, using(crate::proofs::Rules::assignments))]
fn assign_each(w: &mut Writer, names: &BlockNames, targets: &[Target]) -> Result<(), Memory>
    ensures { OnOk result
        (w.new ≡ behind_each names.now (targets_of (map target_of targets.now)) w.old) }
{
    for (i, target) in targets.iter().enumerate() {
        copy_for(w, &targets[i + 1..])?;
        bind_target(w, names, target)?;
    }
    Ok(())
}

/// The value on top is copied where more targets want it.
fn copy_for(w: &mut Writer, rest: &[Target]) -> Result<(), Memory>
    ensures { OnOk result (w.new ≡ copied_for (targets_of (map target_of rest.now)) w.old) }
{
    match rest.first() {
        None => Ok(()),
        Some(_) => w.step(Operation::Plain(Instr::Copy)),
    }
}

/// The code of `target += value` and the like (Language Reference 7.2.1).
///
/// # Errors
///
/// As for an expression.
pub fn augmented_assignment(
    w: &mut Writer,
    names: &BlockNames,
    line: Line,
    target: &Place,
    operator: BinOp,
    value: &Expr,
) -> Result<(), Memory>
    ensures { OnOk result (w.new ≡ behind_augmented names.now (place_of target.now) operator
        (exp_of value.now) line.0 w.old) }
{
    present_value(w, names, target)?;
    value_code(w, names, value, false)?;
    plain(w, Instr::InPlace(operator), line, false)?;
    put_back(w, names, target)
}

/// The present value of a place, whose parts stay below it.
#[tactic(auto, using(pt_tree::proofs::Folds::expressions))]
fn present_value(w: &mut Writer, names: &BlockNames, target: &Place) -> Result<(), Memory>
    ensures { OnOk result (w.new ≡ behind_present names.now (place_of target.now) w.old) }
{
    let at = Surroundings { names, within: &[] };
    match &target.node {
        PlaceNode::Name(name) => name_code(w, &at, name.as_str(), target.line, false),
        PlaceNode::Attribute { object, name } => {
            value_code(w, names, object.get(), false)?;
            w.step(Operation::Plain(Instr::Copy))?;
            get_attribute(w, &at, name.as_str(), target.line)
        }
        PlaceNode::Item { object, index } => {
            value_code(w, names, object.get(), false)?;
            value_code(w, names, index.get(), false)?;
            w.step(Operation::Plain(Instr::Copy2))?;
            plain(w, Instr::Item, target.line, false)
        }
    }
}

/// The value on top goes to a place whose parts lie below it.
#[tactic(auto, using(pt_tree::proofs::Folds::expressions))]
fn put_back(w: &mut Writer, names: &BlockNames, target: &Place) -> Result<(), Memory>
    ensures { OnOk result (w.new ≡ behind_put_back names.now (place_of target.now) w.old) }
{
    let at = Surroundings { names, within: &[] };
    match &target.node {
        PlaceNode::Name(name) => store_name(w, names, name.as_str(), target.line),
        PlaceNode::Attribute { name, .. } => {
            w.step(Operation::Plain(Instr::Swap))?;
            bind_attribute(w, &at, name.as_str(), target.line)
        }
        PlaceNode::Item { .. } => {
            w.step(Operation::Plain(Instr::Rot3))?;
            plain(w, Instr::SetItem, target.line, false)
        }
    }
}

/// The code of `target: annotation = value`, whose annotation isn't evaluated
/// (Language Reference 7.2.2).
///
/// # Errors
///
/// As for an expression.
pub fn annotated_assignment(
    w: &mut Writer,
    names: &BlockNames,
    line: Line,
    target: &Place,
    value: &Option<Expr>,
) -> Result<(), Memory>
    ensures { OnOk result (w.new ≡ behind_annotated names.now (place_of target.now)
        (opt_exp value.now) line.0 w.old) }
{
    match value {
        None => plain(w, Instr::Nop, line, false),
        Some(value) => {
            value_code(w, names, value, false)?;
            bind_place(w, names, target.line, &target.node)
        }
    }
}
