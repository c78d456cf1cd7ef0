//! The acts of expressions and targets, put behind those that stand before them.

ghost use Rattle.std.specs.Prelude.{◌≡◌, ◌++◌, [], OnOk, map, option_map};
ghost use Rattle.pt_tree.specs.Acts.{act, acts_all, acts_args, acts_deleted, acts_all_deleted, acts_clauses, acts_entries, acts_exp, acts_formals, acts_join, acts_links, acts_operands, acts_opt, acts_params, acts_pieces, acts_place, acts_target, acts_targets};
ghost use Rattle.pt_tree.specs.Fold.{all_of, argument_of, chained, clause_of, clauses_of, entry_of, exp_of, formal_of, link_of, opt_exp, parameters_of, piece_of, place_node_of, target_of, targets_of};
ghost use Rattle.pt_acts.specs.Parts.{acts_conditions, acts_iterator, acts_turn};
ghost use Rattle.pt_tree.specs.Syntax.{no_args, no_entries, no_formals, no_links, no_pieces};

use pt_base::{Boxed, Line, Memory, Seq};
use pt_tree::{
    ActKind, ActRow, Argument, Clause, Comparison, Entry, Expr, ExprNode, Parameter, Parameters,
    Piece, PlaceNode, Target, TargetNode,
};

pub fn push_act(rows: &mut Seq<ActRow>, kind: ActKind, line: Line) -> Result<(), Memory>
    ensures { OnOk result (rows.new ≡ rows.old ++ act kind line.0) }
{
    rows.push(ActRow {
        kind,
        line,
        again: false,
    })
}

#[cycle(rows)]
#[tactic(auto, using(pt_tree::proofs::Folds::expressions, crate::proofs::Behind::rows))]
pub fn push_expression(rows: &mut Seq<ActRow>, e: &Expr) -> Result<(), Memory>
    ensures { OnOk result (rows.new ≡ rows.old ++ acts_exp (exp_of e.now)) }
{
    match &e.node {
        ExprNode::Constant(_) => push_act(rows, ActKind::Const, e.line),
        ExprNode::Name(_) => push_act(rows, ActKind::Load, e.line),
        ExprNode::Joined(pieces) => {
            push_pieces(rows, pieces.as_slice())?;
            push_act(rows, ActKind::Join, e.line)
        }
        ExprNode::Tuple(items) => {
            push_all(rows, items.as_slice())?;
            push_act(rows, ActKind::Build, e.line)
        }
        ExprNode::List(items) => {
            push_all(rows, items.as_slice())?;
            push_act(rows, ActKind::Build, e.line)
        }
        ExprNode::Set(items) => {
            push_all(rows, items.as_slice())?;
            push_act(rows, ActKind::Build, e.line)
        }
        ExprNode::Dict(entries) => {
            push_entries(rows, entries.as_slice())?;
            push_act(rows, ActKind::Build, e.line)
        }
        ExprNode::Attribute { object, .. } => {
            push_expression(rows, object.get())?;
            push_act(rows, ActKind::Attr, e.line)
        }
        ExprNode::Item { object, index } => {
            push_expression(rows, object.get())?;
            push_expression(rows, index.get())?;
            push_act(rows, ActKind::Item, e.line)
        }
        ExprNode::Slice { start, stop, step } => {
            push_boxed(rows, start)?;
            push_boxed(rows, stop)?;
            push_boxed(rows, step)?;
            push_act(rows, ActKind::Slice, e.line)
        }
        ExprNode::Unary { operand, .. } => {
            push_expression(rows, operand.get())?;
            push_act(rows, ActKind::Unary, e.line)
        }
        ExprNode::Not(operand) => {
            push_expression(rows, operand.get())?;
            push_act(rows, ActKind::Not, e.line)
        }
        ExprNode::Binary { left, right, .. } => {
            push_expression(rows, left.get())?;
            push_expression(rows, right.get())?;
            push_act(rows, ActKind::Binary, e.line)
        }
        ExprNode::Compare {
            left,
            right,
            rest,
            ..
        } => {
            push_expression(rows, left.get())?;
            push_expression(rows, right.get())?;
            push_act(rows, ActKind::Compare, e.line)?;
            push_links(rows, e.line, rest.as_slice())
        }
        ExprNode::And { first, rest } => {
            push_expression(rows, first.get())?;
            push_operands(rows, e.line, rest.as_slice())
        }
        ExprNode::Or { first, rest } => {
            push_expression(rows, first.get())?;
            push_operands(rows, e.line, rest.as_slice())
        }
        ExprNode::Conditional {
            test,
            body,
            otherwise,
        } => {
            push_expression(rows, test.get())?;
            push_act(rows, ActKind::Branch, e.line)?;
            push_expression(rows, body.get())?;
            push_expression(rows, otherwise.get())
        }
        ExprNode::Call { callee, arguments } => {
            push_expression(rows, callee.get())?;
            push_arguments(rows, e.line, arguments.as_slice())?;
            push_act(rows, ActKind::Call, e.line)
        }
        ExprNode::Lambda { parameters, .. } => {
            push_parameters(rows, parameters)?;
            push_act(rows, ActKind::Function, e.line)
        }
        ExprNode::ListComprehension { item, first, rest } => {
            push_iterator(rows, first.get())?;
            push_act(rows, ActKind::Build, e.line)?;
            push_turn(rows, e.line, first.get())?;
            push_clauses(rows, e.line, rest.as_slice())?;
            push_expression(rows, item.get())?;
            push_act(rows, ActKind::Add, e.line)
        }
        ExprNode::SetComprehension { item, first, rest } => {
            push_iterator(rows, first.get())?;
            push_act(rows, ActKind::Build, e.line)?;
            push_turn(rows, e.line, first.get())?;
            push_clauses(rows, e.line, rest.as_slice())?;
            push_expression(rows, item.get())?;
            push_act(rows, ActKind::Add, e.line)
        }
        ExprNode::DictComprehension {
            key,
            value,
            first,
            rest,
        } => {
            push_iterator(rows, first.get())?;
            push_act(rows, ActKind::Build, e.line)?;
            push_turn(rows, e.line, first.get())?;
            push_clauses(rows, e.line, rest.as_slice())?;
            push_expression(rows, key.get())?;
            push_expression(rows, value.get())?;
            push_act(rows, ActKind::Add, e.line)
        }
        ExprNode::Generator { first, .. } => {
            push_iterator(rows, first.get())?;
            push_act(rows, ActKind::Generator, e.line)
        }
        ExprNode::Yield(value) => {
            push_boxed(rows, value)?;
            push_act(rows, ActKind::Yield, e.line)
        }
        ExprNode::YieldFrom(iterable) => {
            push_expression(rows, iterable.get())?;
            push_act(rows, ActKind::Iter, e.line)?;
            push_act(rows, ActKind::Delegate, e.line)
        }
    }
}

#[cycle(rows)]
#[tactic(auto, using(pt_tree::proofs::Folds::expressions, crate::proofs::Behind::rows))]
fn push_boxed(rows: &mut Seq<ActRow>, e: &Option<Boxed<Expr>>) -> Result<(), Memory>
    ensures { OnOk result (rows.new ≡ rows.old ++ acts_opt (opt_exp e.now)) }
{
    match e {
        None => Ok(()),
        Some(e) => push_expression(rows, e.get()),
    }
}

#[cycle(rows)]
#[tactic(auto, using(pt_tree::proofs::Folds::expressions, crate::proofs::Behind::rows))]
fn push_all(rows: &mut Seq<ActRow>, items: &[Expr]) -> Result<(), Memory>
    ensures { OnOk result (rows.new ≡ rows.old ++ acts_all (all_of (map exp_of items.now))) }
{
    for item in items {
        push_expression(rows, item)?;
    }
    Ok(())
}

#[cycle(rows)]
#[tactic(auto, using(pt_tree::proofs::Folds::expressions, crate::proofs::Behind::rows))]
fn push_operands(rows: &mut Seq<ActRow>, line: Line, rest: &[Expr]) -> Result<(), Memory>
    ensures { OnOk result (rows.new ≡ rows.old ++ acts_operands line.0 (all_of (map exp_of rest.now))) }
{
    for operand in rest {
        push_act(rows, ActKind::Branch, line)?;
        push_expression(rows, operand)?;
    }
    Ok(())
}

#[cycle(rows)]
#[tactic(auto, using(pt_tree::proofs::Folds::expressions, crate::proofs::Behind::rows))]
fn push_links(rows: &mut Seq<ActRow>, line: Line, rest: &[Comparison]) -> Result<(), Memory>
    ensures { OnOk result (rows.new ≡ rows.old ++ acts_links line.0 (chained no_links (map link_of rest.now))) }
{
    for link in rest {
        push_act(rows, ActKind::Branch, line)?;
        push_expression(rows, &link.right)?;
        push_act(rows, ActKind::Compare, line)?;
    }
    Ok(())
}

#[cycle(rows)]
#[tactic(auto, using(pt_tree::proofs::Folds::expressions, crate::proofs::Behind::rows))]
fn push_entries(rows: &mut Seq<ActRow>, entries: &[Entry]) -> Result<(), Memory>
    ensures { OnOk result (rows.new ≡ rows.old ++ acts_entries (chained no_entries (map entry_of entries.now))) }
{
    for entry in entries {
        push_expression(rows, &entry.key)?;
        push_expression(rows, &entry.value)?;
    }
    Ok(())
}

/// The parts of an f-string, or of a field's spec.
#[cycle(rows)]
#[tactic(auto, using(pt_tree::proofs::Folds::expressions, crate::proofs::Behind::rows))]
fn push_pieces(rows: &mut Seq<ActRow>, pieces: &[Piece]) -> Result<(), Memory>
    ensures { OnOk result (rows.new ≡ rows.old ++ acts_pieces (chained no_pieces (map piece_of pieces.now))) }
{
    for piece in pieces {
        push_piece(rows, piece)?;
    }
    Ok(())
}

#[cycle(rows)]
#[tactic(auto, using(pt_tree::proofs::Folds::expressions, crate::proofs::Behind::rows))]
fn push_piece(rows: &mut Seq<ActRow>, piece: &Piece) -> Result<(), Memory>
    ensures { OnOk result (rows.new ≡ rows.old ++ acts_pieces (piece_of piece.now no_pieces)) }
{
    match piece {
        Piece::Literal { line, .. } => push_act(rows, ActKind::Const, *line),
        Piece::Field {
            line,
            value,
            spec,
            ..
        } => {
            push_expression(rows, value.get())?;
            push_pieces(rows, spec.as_slice())?;
            push_join(rows, *line, spec.as_slice())?;
            push_act(rows, ActKind::Format, *line)
        }
    }
}

#[cycle(rows)]
#[tactic(auto, using(pt_tree::proofs::Folds::expressions, crate::proofs::Behind::rows))]
fn push_arguments(rows: &mut Seq<ActRow>, line: Line, arguments: &[Argument]) -> Result<(), Memory>
    ensures { OnOk result (rows.new ≡ rows.old ++ acts_args line.0 (chained no_args (map argument_of arguments.now))) }
{
    for argument in arguments {
        push_argument(rows, line, argument)?;
    }
    Ok(())
}

#[cycle(rows)]
#[tactic(auto, using(pt_tree::proofs::Folds::expressions, crate::proofs::Behind::rows))]
fn push_argument(rows: &mut Seq<ActRow>, line: Line, argument: &Argument) -> Result<(), Memory>
    ensures { OnOk result (rows.new ≡ rows.old ++ acts_args line.0 (argument_of argument.now no_args)) }
{
    match argument {
        Argument::Positional(value) => push_expression(rows, value),
        Argument::Named { value, .. } => push_expression(rows, value),
        Argument::Spread(value) => {
            push_expression(rows, value)?;
            push_act(rows, ActKind::Spread, line)
        }
        Argument::SpreadNamed(value) => {
            push_expression(rows, value)?;
            push_act(rows, ActKind::Spread, line)
        }
    }
}

/// Several parts of a field's spec are joined.
#[tactic(auto, using(crate::proofs::Behind::joins))]
fn push_join(rows: &mut Seq<ActRow>, line: Line, spec: &[Piece]) -> Result<(), Memory>
    ensures { OnOk result (rows.new ≡ rows.old ++ acts_join line.0 (chained no_pieces (map piece_of spec.now))) }
{
    if spec.len() > 1 {
        push_act(rows, ActKind::Join, line)
    } else {
        Ok(())
    }
}

/// The iterator of a comprehension's first clause.
#[cycle(rows)]
#[tactic(auto, using(pt_tree::proofs::Folds::expressions, crate::proofs::Behind::rows))]
fn push_iterator(rows: &mut Seq<ActRow>, first: &Clause) -> Result<(), Memory>
    ensures { OnOk result (rows.new ≡ rows.old ++ acts_iterator (clause_of first.now)) }
{
    push_expression(rows, &first.iterable)?;
    push_act(rows, ActKind::Iter, first.line)
}

/// A turn of a clause, on the line of the comprehension.
#[cycle(rows)]
#[tactic(auto, using(pt_tree::proofs::Folds::expressions, crate::proofs::Behind::rows))]
pub fn push_turn(rows: &mut Seq<ActRow>, line: Line, clause: &Clause) -> Result<(), Memory>
    ensures { OnOk result (rows.new ≡ rows.old ++ acts_turn line.0 (clause_of clause.now)) }
{
    push_act(rows, ActKind::Next, clause.line)?;
    push_target(rows, &clause.target)?;
    push_conditions(rows, line, clause.conditions.as_slice())
}

#[cycle(rows)]
#[tactic(auto, using(pt_tree::proofs::Folds::expressions, crate::proofs::Behind::rows))]
fn push_conditions(rows: &mut Seq<ActRow>, line: Line, conditions: &[Expr]) -> Result<(), Memory>
    ensures { OnOk result (rows.new ≡ rows.old ++ acts_conditions line.0 (map exp_of conditions.now)) }
{
    for condition in conditions {
        push_expression(rows, condition)?;
        push_act(rows, ActKind::Branch, line)?;
    }
    Ok(())
}

/// The clauses behind the first.
#[cycle(rows)]
#[tactic(auto, using(pt_tree::proofs::Folds::expressions, crate::proofs::Behind::rows))]
pub fn push_clauses(rows: &mut Seq<ActRow>, line: Line, clauses: &[Clause]) -> Result<(), Memory>
    ensures { OnOk result (rows.new ≡ rows.old ++ acts_clauses line.0 (clauses_of (map clause_of clauses.now))) }
{
    for clause in clauses {
        push_iterator(rows, clause)?;
        push_turn(rows, line, clause)?;
    }
    Ok(())
}

#[cycle(rows)]
#[tactic(auto, using(pt_tree::proofs::Folds::expressions, crate::proofs::Behind::rows))]
pub fn push_place(rows: &mut Seq<ActRow>, line: Line, place: &PlaceNode) -> Result<(), Memory>
    ensures { OnOk result (rows.new ≡ rows.old ++ acts_place (place_node_of place.now line.0)) }
{
    match place {
        PlaceNode::Name(_) => push_act(rows, ActKind::Store, line),
        PlaceNode::Attribute { object, .. } => {
            push_expression(rows, object.get())?;
            push_act(rows, ActKind::SetAttr, line)
        }
        PlaceNode::Item { object, index } => {
            push_expression(rows, object.get())?;
            push_expression(rows, index.get())?;
            push_act(rows, ActKind::SetItem, line)
        }
    }
}

#[cycle(rows)]
#[tactic(auto, using(pt_tree::proofs::Folds::expressions, crate::proofs::Behind::rows))]
pub fn push_target(rows: &mut Seq<ActRow>, target: &Target) -> Result<(), Memory>
    ensures { OnOk result (rows.new ≡ rows.old ++ acts_target (target_of target.now)) }
{
    match &target.node {
        TargetNode::Place(place) => push_place(rows, target.line, place),
        TargetNode::Tuple(targets) => {
            push_act(rows, ActKind::Unpack, target.line)?;
            push_targets(rows, targets.as_slice())
        }
        TargetNode::List(targets) => {
            push_act(rows, ActKind::Unpack, target.line)?;
            push_targets(rows, targets.as_slice())
        }
        TargetNode::Starred(target) => push_target(rows, target.get()),
    }
}

#[cycle(rows)]
#[tactic(auto, using(pt_tree::proofs::Folds::expressions, crate::proofs::Behind::rows))]
pub fn push_targets(rows: &mut Seq<ActRow>, targets: &[Target]) -> Result<(), Memory>
    ensures { OnOk result (rows.new ≡ rows.old ++ acts_targets (targets_of (map target_of targets.now))) }
{
    for target in targets {
        push_target(rows, target)?;
    }
    Ok(())
}

/// The defaults of parameters.
#[cycle(rows)]
#[tactic(auto, using(pt_tree::proofs::Folds::expressions, crate::proofs::Behind::rows))]
pub fn push_parameters(rows: &mut Seq<ActRow>, parameters: &Parameters) -> Result<(), Memory>
    ensures { OnOk result (rows.new ≡ rows.old ++ acts_params (parameters_of parameters.now)) }
{
    push_defaults(rows, parameters.positional.as_slice())?;
    push_defaults(rows, parameters.keyword_only.as_slice())
}

#[cycle(rows)]
#[tactic(auto, using(pt_tree::proofs::Folds::expressions, crate::proofs::Behind::rows))]
fn push_defaults(rows: &mut Seq<ActRow>, parameters: &[Parameter]) -> Result<(), Memory>
    ensures { OnOk result (rows.new ≡ rows.old ++ acts_formals (chained no_formals (map formal_of parameters.now))) }
{
    for parameter in parameters {
        push_boxed(rows, &parameter.default)?;
    }
    Ok(())
}
