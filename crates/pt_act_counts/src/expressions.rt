//! The acts of expressions and targets, counted on from those that stand before them.

ghost use Rattle.std.specs.Prelude.{◌≡◌, ◌+◌, OnOk, map};
ghost use Rattle.pt_tree.specs.Sizes.{all_size, args_size, clauses_size, entries_size, formals_size, joins, links_size, operands_size, opt_size, params_size, pieces_size, place_size, size, target_size, targets_size};
ghost use Rattle.pt_tree.specs.Fold.{all_of, argument_of, chained, clause_of, clauses_of, entry_of, exp_of, formal_of, link_of, opt_exp, parameters_of, piece_of, place_node_of, target_of, targets_of};
ghost use Rattle.pt_tree.specs.Syntax.{no_args, no_entries, no_formals, no_links, no_pieces};
ghost use Rattle.pt_act_counts.specs.Parts.{conditions_size, turn_size};

use crate::count::add;
use pt_base::{Boxed, Memory};
use pt_tree::{
    Argument, Clause, Comparison, Entry, Expr, ExprNode, Parameter, Parameters, Piece, PlaceNode,
    Target, TargetNode,
};

#[cycle(counts)]
#[tactic(auto, using(pt_tree::proofs::Folds::expressions, crate::proofs::Sums::clauses))]
pub fn count_expression(acts: &mut u32, e: &Expr) -> Result<(), Memory>
    ensures { OnOk result (acts.new ≡ acts.old + size (exp_of e.now)) }
{
    match &e.node {
        ExprNode::Constant(_) => add(acts, 1),
        ExprNode::Name(_) => add(acts, 1),
        ExprNode::Joined(pieces) => {
            count_pieces(acts, pieces.as_slice())?;
            add(acts, 1)
        }
        ExprNode::Tuple(items) => {
            count_all(acts, items.as_slice())?;
            add(acts, 1)
        }
        ExprNode::List(items) => {
            count_all(acts, items.as_slice())?;
            add(acts, 1)
        }
        ExprNode::Set(items) => {
            count_all(acts, items.as_slice())?;
            add(acts, 1)
        }
        ExprNode::Dict(entries) => {
            count_entries(acts, entries.as_slice())?;
            add(acts, 1)
        }
        ExprNode::Attribute { object, .. } => {
            count_expression(acts, object.get())?;
            add(acts, 1)
        }
        ExprNode::Item { object, index } => {
            count_expression(acts, object.get())?;
            count_expression(acts, index.get())?;
            add(acts, 1)
        }
        ExprNode::Slice { start, stop, step } => {
            count_optional(acts, start)?;
            count_optional(acts, stop)?;
            count_optional(acts, step)?;
            add(acts, 1)
        }
        ExprNode::Unary { operand, .. } => {
            count_expression(acts, operand.get())?;
            add(acts, 1)
        }
        ExprNode::Not(operand) => {
            count_expression(acts, operand.get())?;
            add(acts, 1)
        }
        ExprNode::Binary { left, right, .. } => {
            count_expression(acts, left.get())?;
            count_expression(acts, right.get())?;
            add(acts, 1)
        }
        ExprNode::Compare {
            left,
            right,
            rest,
            ..
        } => {
            count_expression(acts, left.get())?;
            count_expression(acts, right.get())?;
            add(acts, 1)?;
            count_links(acts, rest.as_slice())
        }
        ExprNode::And { first, rest } => {
            count_expression(acts, first.get())?;
            count_operands(acts, rest.as_slice())
        }
        ExprNode::Or { first, rest } => {
            count_expression(acts, first.get())?;
            count_operands(acts, rest.as_slice())
        }
        ExprNode::Conditional {
            test,
            body,
            otherwise,
        } => {
            count_expression(acts, test.get())?;
            add(acts, 1)?;
            count_expression(acts, body.get())?;
            count_expression(acts, otherwise.get())
        }
        ExprNode::Call { callee, arguments } => {
            count_expression(acts, callee.get())?;
            count_arguments(acts, arguments.as_slice())?;
            add(acts, 1)
        }
        ExprNode::Lambda { parameters, .. } => {
            count_parameters(acts, parameters)?;
            add(acts, 1)
        }
        ExprNode::ListComprehension { item, first, rest } => {
            count_iterator(acts, first.get())?;
            add(acts, 1)?;
            count_turn(acts, first.get())?;
            count_clauses(acts, rest.as_slice())?;
            count_expression(acts, item.get())?;
            add(acts, 1)
        }
        ExprNode::SetComprehension { item, first, rest } => {
            count_iterator(acts, first.get())?;
            add(acts, 1)?;
            count_turn(acts, first.get())?;
            count_clauses(acts, rest.as_slice())?;
            count_expression(acts, item.get())?;
            add(acts, 1)
        }
        ExprNode::DictComprehension {
            key,
            value,
            first,
            rest,
        } => {
            count_iterator(acts, first.get())?;
            add(acts, 1)?;
            count_turn(acts, first.get())?;
            count_clauses(acts, rest.as_slice())?;
            count_expression(acts, key.get())?;
            count_expression(acts, value.get())?;
            add(acts, 1)
        }
        ExprNode::Generator { first, .. } => {
            count_iterator(acts, first.get())?;
            add(acts, 1)
        }
        ExprNode::Yield(value) => {
            count_optional(acts, value)?;
            add(acts, 1)
        }
        ExprNode::YieldFrom(iterable) => {
            count_expression(acts, iterable.get())?;
            add(acts, 2)
        }
    }
}

#[cycle(counts)]
fn count_optional(acts: &mut u32, e: &Option<Boxed<Expr>>) -> Result<(), Memory>
    ensures { OnOk result (acts.new ≡ acts.old + opt_size (opt_exp e.now)) }
{
    match e {
        None => Ok(()),
        Some(e) => count_expression(acts, e.get()),
    }
}

#[cycle(counts)]
fn count_all(acts: &mut u32, items: &[Expr]) -> Result<(), Memory>
    ensures { OnOk result (acts.new ≡ acts.old + all_size (all_of (map exp_of items.now))) }
{
    for item in items {
        count_expression(acts, item)?;
    }
    Ok(())
}

/// Operands behind the first of an `and` or `or`, each with the decision before it.
#[cycle(counts)]
fn count_operands(acts: &mut u32, rest: &[Expr]) -> Result<(), Memory>
    ensures { OnOk result (acts.new ≡ acts.old + operands_size (all_of (map exp_of rest.now))) }
{
    for operand in rest {
        add(acts, 1)?;
        count_expression(acts, operand)?;
    }
    Ok(())
}

/// Comparisons behind the first, each with the decision before it.
#[cycle(counts)]
#[tactic(auto, using(pt_tree::proofs::Folds::expressions))]
fn count_links(acts: &mut u32, rest: &[Comparison]) -> Result<(), Memory>
    ensures { OnOk result
        (acts.new ≡ acts.old + links_size (chained no_links (map link_of rest.now))) }
{
    for link in rest {
        count_expression(acts, &link.right)?;
        add(acts, 2)?;
    }
    Ok(())
}

#[cycle(counts)]
#[tactic(auto, using(pt_tree::proofs::Folds::expressions))]
fn count_entries(acts: &mut u32, entries: &[Entry]) -> Result<(), Memory>
    ensures { OnOk result
        (acts.new ≡ acts.old + entries_size (chained no_entries (map entry_of entries.now))) }
{
    for entry in entries {
        count_expression(acts, &entry.key)?;
        count_expression(acts, &entry.value)?;
    }
    Ok(())
}

/// The parts of an f-string, or of a field's spec.
#[cycle(counts)]
#[tactic(auto, using(crate::proofs::Sums::pieces))]
fn count_pieces(acts: &mut u32, pieces: &[Piece]) -> Result<(), Memory>
    ensures { OnOk result
        (acts.new ≡ acts.old + pieces_size (chained no_pieces (map piece_of pieces.now))) }
{
    for piece in pieces {
        count_piece(acts, piece)?;
    }
    Ok(())
}

#[cycle(counts)]
#[tactic(auto, using(pt_tree::proofs::Folds::expressions))]
fn count_piece(acts: &mut u32, piece: &Piece) -> Result<(), Memory>
    ensures { OnOk result (acts.new ≡ acts.old + pieces_size (piece_of piece.now no_pieces)) }
{
    match piece {
        Piece::Literal { .. } => add(acts, 1),
        Piece::Field { value, spec, .. } => {
            count_expression(acts, value.get())?;
            count_pieces(acts, spec.as_slice())?;
            add(acts, join_acts(spec.as_slice()))?;
            add(acts, 1)
        }
    }
}

/// Several parts of a field's spec are joined.
#[tactic(auto, using(crate::proofs::Sums::several_joins))]
fn join_acts(spec: &[Piece]) -> u32
    ensures { result ≡ joins (chained no_pieces (map piece_of spec.now)) }
{
    if spec.len() > 1 { 1 } else { 0 }
}

#[cycle(counts)]
#[tactic(auto, using(crate::proofs::Sums::arguments))]
fn count_arguments(acts: &mut u32, arguments: &[Argument]) -> Result<(), Memory>
    ensures { OnOk result
        (acts.new ≡ acts.old + args_size (chained no_args (map argument_of arguments.now))) }
{
    for argument in arguments {
        count_argument(acts, argument)?;
    }
    Ok(())
}

#[cycle(counts)]
#[tactic(auto, using(pt_tree::proofs::Folds::expressions))]
fn count_argument(acts: &mut u32, argument: &Argument) -> Result<(), Memory>
    ensures { OnOk result (acts.new ≡ acts.old + args_size (argument_of argument.now no_args)) }
{
    match argument {
        Argument::Positional(value) => count_expression(acts, value),
        Argument::Named { value, .. } => count_expression(acts, value),
        Argument::Spread(value) => {
            count_expression(acts, value)?;
            add(acts, 1)
        }
        Argument::SpreadNamed(value) => {
            count_expression(acts, value)?;
            add(acts, 1)
        }
    }
}

/// The iterator of a clause.
#[cycle(counts)]
#[tactic(auto, using(pt_tree::proofs::Folds::expressions))]
fn count_iterator(acts: &mut u32, clause: &Clause) -> Result<(), Memory>
    ensures { OnOk result (acts.new ≡ acts.old + (size (clause_of clause.now).iterable + 1)) }
{
    count_expression(acts, &clause.iterable)?;
    add(acts, 1)
}

/// A turn of a clause: the next item, which is bound to the target, and the conditions.
#[cycle(counts)]
#[tactic(auto, using(pt_tree::proofs::Folds::expressions))]
fn count_turn(acts: &mut u32, clause: &Clause) -> Result<(), Memory>
    ensures { OnOk result (acts.new ≡ acts.old + turn_size (clause_of clause.now)) }
{
    add(acts, 1)?;
    count_target(acts, &clause.target)?;
    count_conditions(acts, clause.conditions.as_slice())
}

#[cycle(counts)]
fn count_conditions(acts: &mut u32, conditions: &[Expr]) -> Result<(), Memory>
    ensures { OnOk result (acts.new ≡ acts.old + conditions_size (map exp_of conditions.now)) }
{
    for condition in conditions {
        count_expression(acts, condition)?;
        add(acts, 1)?;
    }
    Ok(())
}

/// The clauses behind the first.
#[cycle(counts)]
#[tactic(auto, using(pt_tree::proofs::Folds::expressions, crate::proofs::Sums::clauses))]
fn count_clauses(acts: &mut u32, clauses: &[Clause]) -> Result<(), Memory>
    ensures { OnOk result
        (acts.new ≡ acts.old + clauses_size (clauses_of (map clause_of clauses.now))) }
{
    for clause in clauses {
        count_iterator(acts, clause)?;
        count_turn(acts, clause)?;
    }
    Ok(())
}

/// What binds a place, or unbinds it.
#[cycle(counts)]
#[tactic(auto, using(pt_tree::proofs::Folds::expressions))]
pub fn count_place(acts: &mut u32, place: &PlaceNode) -> Result<(), Memory>
    ensures { OnOk result ((l : _) → acts.new ≡ acts.old + place_size (place_node_of place.now l)) }
{
    match place {
        PlaceNode::Name(_) => add(acts, 1),
        PlaceNode::Attribute { object, .. } => {
            count_expression(acts, object.get())?;
            add(acts, 1)
        }
        PlaceNode::Item { object, index } => {
            count_expression(acts, object.get())?;
            count_expression(acts, index.get())?;
            add(acts, 1)
        }
    }
}

#[cycle(counts)]
#[tactic(auto, using(pt_tree::proofs::Folds::expressions))]
pub fn count_target(acts: &mut u32, target: &Target) -> Result<(), Memory>
    ensures { OnOk result (acts.new ≡ acts.old + target_size (target_of target.now)) }
{
    match &target.node {
        TargetNode::Place(place) => count_place(acts, place),
        TargetNode::Tuple(targets) => {
            add(acts, 1)?;
            count_targets(acts, targets.as_slice())
        }
        TargetNode::List(targets) => {
            add(acts, 1)?;
            count_targets(acts, targets.as_slice())
        }
        TargetNode::Starred(target) => count_target(acts, target.get()),
    }
}

#[cycle(counts)]
pub fn count_targets(acts: &mut u32, targets: &[Target]) -> Result<(), Memory>
    ensures { OnOk result
        (acts.new ≡ acts.old + targets_size (targets_of (map target_of targets.now))) }
{
    for target in targets {
        count_target(acts, target)?;
    }
    Ok(())
}

/// The defaults of parameters.
#[cycle(counts)]
#[tactic(auto, using(pt_tree::proofs::Folds::expressions))]
pub fn count_parameters(acts: &mut u32, parameters: &Parameters) -> Result<(), Memory>
    ensures { OnOk result (acts.new ≡ acts.old + params_size (parameters_of parameters.now)) }
{
    count_defaults(acts, parameters.positional.as_slice())?;
    count_defaults(acts, parameters.keyword_only.as_slice())
}

#[cycle(counts)]
#[tactic(auto, using(pt_tree::proofs::Folds::expressions))]
fn count_defaults(acts: &mut u32, parameters: &[Parameter]) -> Result<(), Memory>
    ensures { OnOk result
        (acts.new ≡ acts.old + formals_size (chained no_formals (map formal_of parameters.now))) }
{
    for parameter in parameters {
        count_optional(acts, &parameter.default)?;
    }
    Ok(())
}
