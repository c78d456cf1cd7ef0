//! The first unsupported node of an expression, a target or a list of parameters.

ghost use Rattle.std.specs.Prelude.{◌≡◌, Some, None, [], ◌∷◌, map, option_map};
ghost use Rattle.pt_tree.specs.Fold.{all_of, argument_of, chained, clause_of, clauses_of, entry_of, exp_of, formal_of, link_of, opt_exp, parameters_of, piece_of, place_node_of, target_of, targets_of};
ghost use Rattle.pt_tree.specs.Syntax.{no_args, no_entries, no_formals, no_links, no_pieces};
ghost use Rattle.pt_supported.specs.Built.{unbuilt_all, unbuilt_args, unbuilt_clauses, unbuilt_entries, unbuilt_exp, unbuilt_formals, unbuilt_links, unbuilt_opt, unbuilt_params, unbuilt_pieces, unbuilt_place, unbuilt_target, unbuilt_targets};

use crate::names::{is_available, star, unless};
use pt_base::{Boxed, Line};
use pt_tree::{
    Argument, Clause, Comparison, Entry, Expr, ExprNode, Parameter, Parameters, Piece, PlaceNode,
    Target, TargetNode,
};

#[cycle(expressions)]
#[tactic(auto, using(pt_tree::proofs::Folds::expressions))]
pub fn unbuilt_expression(e: &Expr) -> Option<Line>
    ensures { option_map (λ l. l.0) result ≡ unbuilt_exp (exp_of e.now) }
{
    match &e.node {
        ExprNode::Constant(_) => None,
        ExprNode::Name(name) => unless(is_available(name.as_str()), e.line),
        ExprNode::Unary { operand, .. } => unbuilt_expression(operand.get()),
        ExprNode::Not(operand) => unbuilt_expression(operand.get()),
        ExprNode::Binary { left, right, .. } => {
            unbuilt_expression(left.get()).or(unbuilt_expression(right.get()))
        }
        ExprNode::Compare {
            left,
            right,
            rest,
            ..
        } => {
            let others = unbuilt_links(rest.as_slice());
            let behind = unbuilt_expression(right.get()).or(others);
            unbuilt_expression(left.get()).or(behind)
        }
        ExprNode::And { first, rest } => {
            unbuilt_expression(first.get()).or(unbuilt_all(rest.as_slice()))
        }
        ExprNode::Or { first, rest } => {
            unbuilt_expression(first.get()).or(unbuilt_all(rest.as_slice()))
        }
        ExprNode::Conditional {
            test,
            body,
            otherwise,
        } => {
            let otherwise = unbuilt_expression(otherwise.get());
            let behind = unbuilt_expression(test.get()).or(otherwise);
            unbuilt_expression(body.get()).or(behind)
        }
        ExprNode::Call { callee, arguments } => {
            let given = unbuilt_arguments(arguments.as_slice());
            unbuilt_expression(callee.get()).or(given)
        }
        ExprNode::Lambda {
            parameters,
            body,
            ..
        } => unbuilt_parameters(parameters).or(unbuilt_expression(body.get())),
        ExprNode::Tuple(items) => unbuilt_all(items.as_slice()),
        ExprNode::List(items) => unbuilt_all(items.as_slice()),
        ExprNode::Set(items) => unbuilt_all(items.as_slice()),
        ExprNode::Dict(entries) => unbuilt_entries(entries.as_slice()),
        ExprNode::Attribute { object, .. } => unbuilt_expression(object.get()),
        ExprNode::Item { object, index } => {
            unbuilt_expression(object.get()).or(unbuilt_expression(index.get()))
        }
        ExprNode::Slice { start, stop, step } => {
            let behind = unbuilt_boxed(stop).or(unbuilt_boxed(step));
            unbuilt_boxed(start).or(behind)
        }
        ExprNode::Joined(pieces) => unbuilt_pieces(pieces.as_slice()),
        ExprNode::ListComprehension { item, first, rest } => {
            let others = unbuilt_clauses(rest.as_slice());
            let behind = unbuilt_clause(first.get()).or(others);
            unbuilt_expression(item.get()).or(behind)
        }
        ExprNode::SetComprehension { item, first, rest } => {
            let others = unbuilt_clauses(rest.as_slice());
            let behind = unbuilt_clause(first.get()).or(others);
            unbuilt_expression(item.get()).or(behind)
        }
        ExprNode::DictComprehension {
            key,
            value,
            first,
            rest,
        } => {
            let value = unbuilt_expression(value.get());
            let item = unbuilt_expression(key.get()).or(value);
            let others = unbuilt_clauses(rest.as_slice());
            let behind = unbuilt_clause(first.get()).or(others);
            item.or(behind)
        }
        ExprNode::Generator { .. } | ExprNode::Yield(_) | ExprNode::YieldFrom(_) => Some(e.line),
    }
}

#[cycle(expressions)]
#[tactic(auto, using(pt_tree::proofs::Folds::expressions))]
fn unbuilt_all(items: &[Expr]) -> Option<Line>
    ensures { option_map (λ l. l.0) result ≡ unbuilt_all (all_of (map exp_of items.now)) }
{
    for item in items {
        let found = unbuilt_expression(item);
        if found.is_some() {
            return found;
        }
    }
    None
}

/// The parts of an f-string, or of a field's spec.
#[cycle(expressions)]
#[tactic(auto, using(pt_tree::proofs::Folds::expressions))]
fn unbuilt_pieces(pieces: &[Piece]) -> Option<Line>
    ensures { option_map (λ l. l.0) result
        ≡ unbuilt_pieces (chained no_pieces (map piece_of pieces.now)) }
{
    for piece in pieces {
        let found = unbuilt_piece(piece);
        if found.is_some() {
            return found;
        }
    }
    None
}

#[cycle(expressions)]
#[tactic(auto, using(pt_tree::proofs::Folds::expressions))]
fn unbuilt_piece(piece: &Piece) -> Option<Line>
    ensures { option_map (λ l. l.0) result ≡ unbuilt_pieces (piece_of piece.now no_pieces) }
{
    match piece {
        Piece::Literal { .. } => None,
        Piece::Field { value, spec, .. } => {
            unbuilt_expression(value.get()).or(unbuilt_pieces(spec.as_slice()))
        }
    }
}

/// The entries of a dictionary's display.
#[cycle(expressions)]
#[tactic(auto, using(pt_tree::proofs::Folds::expressions))]
fn unbuilt_entries(entries: &[Entry]) -> Option<Line>
    ensures { option_map (λ l. l.0) result
        ≡ unbuilt_entries (chained no_entries (map entry_of entries.now)) }
{
    for entry in entries {
        let key = unbuilt_expression(&entry.key);
        let found = key.or(unbuilt_expression(&entry.value));
        if found.is_some() {
            return found;
        }
    }
    None
}

/// The comparisons behind the first.
#[cycle(expressions)]
#[tactic(auto, using(pt_tree::proofs::Folds::expressions))]
fn unbuilt_links(rest: &[Comparison]) -> Option<Line>
    ensures { option_map (λ l. l.0) result
        ≡ unbuilt_links (chained no_links (map link_of rest.now)) }
{
    for link in rest {
        let found = unbuilt_expression(&link.right);
        if found.is_some() {
            return found;
        }
    }
    None
}

#[cycle(expressions)]
#[tactic(auto, using(pt_tree::proofs::Folds::expressions))]
fn unbuilt_arguments(arguments: &[Argument]) -> Option<Line>
    ensures { option_map (λ l. l.0) result
        ≡ unbuilt_args (chained no_args (map argument_of arguments.now)) }
{
    for argument in arguments {
        let found = unbuilt_argument(argument);
        if found.is_some() {
            return found;
        }
    }
    None
}

#[cycle(expressions)]
#[tactic(auto, using(pt_tree::proofs::Folds::expressions))]
fn unbuilt_argument(argument: &Argument) -> Option<Line>
    ensures { option_map (λ l. l.0) result ≡ unbuilt_args (argument_of argument.now no_args) }
{
    match argument {
        Argument::Positional(value) => unbuilt_expression(value),
        Argument::Named { value, .. } => unbuilt_expression(value),
        Argument::Spread(value) => unbuilt_expression(value),
        Argument::SpreadNamed(value) => unbuilt_expression(value),
    }
}

#[cycle(expressions)]
#[tactic(auto, using(pt_tree::proofs::Folds::expressions))]
pub fn unbuilt_parameters(parameters: &Parameters) -> Option<Line>
    ensures { option_map (λ l. l.0) result ≡ unbuilt_params (parameters_of parameters.now) }
{
    let keyword_only = unbuilt_formals(parameters.keyword_only.as_slice());
    let behind = star(&parameters.star).or(keyword_only.or(star(&parameters.double_star)));
    unbuilt_formals(parameters.positional.as_slice()).or(behind)
}

/// Parameters with their defaults.
#[cycle(expressions)]
#[tactic(auto, using(pt_tree::proofs::Folds::expressions))]
fn unbuilt_formals(parameters: &[Parameter]) -> Option<Line>
    ensures { option_map (λ l. l.0) result
        ≡ unbuilt_formals (chained no_formals (map formal_of parameters.now)) }
{
    for parameter in parameters {
        let found = unbuilt_formal(parameter);
        if found.is_some() {
            return found;
        }
    }
    None
}

#[cycle(expressions)]
#[tactic(auto, using(pt_tree::proofs::Folds::expressions))]
fn unbuilt_formal(parameter: &Parameter) -> Option<Line>
    ensures { option_map (λ l. l.0) result
        ≡ unbuilt_formals (formal_of parameter.now no_formals) }
{
    let name = unless(is_available(parameter.name.as_str()), parameter.line);
    name.or(unbuilt_boxed(&parameter.default))
}

#[cycle(expressions)]
#[tactic(auto, using(pt_tree::proofs::Folds::expressions))]
fn unbuilt_boxed(e: &Option<Boxed<Expr>>) -> Option<Line>
    ensures { option_map (λ l. l.0) result ≡ unbuilt_opt (opt_exp e.now) }
{
    match e {
        Some(e) => unbuilt_expression(e.get()),
        None => None,
    }
}

/// The clauses of a comprehension behind the first.
#[cycle(expressions)]
#[tactic(auto, using(pt_tree::proofs::Folds::expressions))]
fn unbuilt_clauses(clauses: &[Clause]) -> Option<Line>
    ensures { option_map (λ l. l.0) result
        ≡ unbuilt_clauses (clauses_of (map clause_of clauses.now)) }
{
    for clause in clauses {
        let found = unbuilt_clause(clause);
        if found.is_some() {
            return found;
        }
    }
    None
}

#[cycle(expressions)]
#[tactic(auto, using(pt_tree::proofs::Folds::expressions))]
fn unbuilt_clause(clause: &Clause) -> Option<Line>
    ensures { option_map (λ l. l.0) result ≡ unbuilt_clauses (clauses_of (clause_of clause.now ∷ [])) }
{
    let conditions = unbuilt_all(clause.conditions.as_slice());
    let behind = unbuilt_expression(&clause.iterable).or(conditions);
    unbuilt_target(&clause.target).or(behind)
}

#[cycle(expressions)]
#[tactic(auto, using(pt_tree::proofs::Folds::expressions))]
pub fn unbuilt_place(line: Line, place: &PlaceNode) -> Option<Line>
    ensures { option_map (λ l. l.0) result ≡ unbuilt_place (place_node_of place.now line.0) }
{
    match place {
        PlaceNode::Name(name) => unless(is_available(name.as_str()), line),
        PlaceNode::Attribute { object, .. } => unbuilt_expression(object.get()),
        PlaceNode::Item { object, index } => {
            let index = unbuilt_expression(index.get());
            unbuilt_expression(object.get()).or(index)
        }
    }
}

#[cycle(expressions)]
#[tactic(auto, using(pt_tree::proofs::Folds::expressions))]
pub fn unbuilt_target(target: &Target) -> Option<Line>
    ensures { option_map (λ l. l.0) result ≡ unbuilt_target (target_of target.now) }
{
    match &target.node {
        TargetNode::Place(place) => unbuilt_place(target.line, place),
        TargetNode::Tuple(parts) => unbuilt_targets(parts.as_slice()),
        TargetNode::List(parts) => unbuilt_targets(parts.as_slice()),
        TargetNode::Starred(inner) => unbuilt_target(inner.get()),
    }
}

#[cycle(expressions)]
#[tactic(auto, using(pt_tree::proofs::Folds::expressions))]
pub fn unbuilt_targets(targets: &[Target]) -> Option<Line>
    ensures { option_map (λ l. l.0) result
        ≡ unbuilt_targets (targets_of (map target_of targets.now)) }
{
    for target in targets {
        let found = unbuilt_target(target);
        if found.is_some() {
            return found;
        }
    }
    None
}
