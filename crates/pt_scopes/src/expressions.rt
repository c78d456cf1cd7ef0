//! What the parts of expressions and targets mention (Language Reference 6, 7.2).

ghost use Rattle.std.specs.Prelude.{◌≡◌, [], OnOk, map, option_map};
ghost use Rattle.pt_scopes.specs.Behind.{behind};
ghost use Rattle.pt_scopes.specs.Mentions.{places_exp, places_all, places_opt, places_pieces, places_entries, places_links, places_args, places_clauses, places_place, places_target, places_targets, places_params, places_formals, places_named_parameter, places_conditions};
ghost use Rattle.pt_tree.specs.Fold.{all_of, argument_of, chained, clause_of, clauses_of, entry_of, exp_of, formal_of, link_of, opt_exp, parameters_of, piece_of, place_node_of, target_of, targets_of};
ghost use Rattle.pt_tree.specs.Syntax.{no_args, no_entries, no_formals, no_links, no_pieces};

use crate::gatherer::Gatherer;
use crate::region::{Context, Role};
use pt_base::{Boxed, Line, Memory};
use pt_tree::{
    Argument, Clause, Comparison, Entry, Expr, ExprNode, NamedParameter, Parameter, Parameters,
    Piece, PlaceNode, Target, TargetNode,
};

#[cycle(expressions)]
#[tactic(auto, using(pt_tree::proofs::Folds::expressions, crate::proofs::Behind::parts))]
pub fn expression(g: &mut Gatherer, at: Context, class: &str, e: &Expr) -> Result<(), Memory>
    ensures { OnOk result (g.new ≡ behind g.old (places_exp at class.now (exp_of e.now))) }
{
    match &e.node {
        ExprNode::Constant(_) => Ok(()),
        ExprNode::Name(name) => g.tell(Role::Read, at, class, name.as_str(), e.line),
        ExprNode::Joined(parts) => pieces(g, at, class, parts.as_slice()),
        ExprNode::Tuple(items) => all(g, at, class, items.as_slice()),
        ExprNode::List(items) => all(g, at, class, items.as_slice()),
        ExprNode::Set(items) => all(g, at, class, items.as_slice()),
        ExprNode::Dict(items) => entries(g, at, class, items.as_slice()),
        ExprNode::Attribute { object, .. } => expression(g, at, class, object.get()),
        ExprNode::Item { object, index } => {
            expression(g, at, class, object.get())?;
            expression(g, at, class, index.get())
        }
        ExprNode::Slice { start, stop, step } => {
            boxed(g, at, class, start)?;
            boxed(g, at, class, stop)?;
            boxed(g, at, class, step)
        }
        ExprNode::Unary { operand, .. } => expression(g, at, class, operand.get()),
        ExprNode::Not(operand) => expression(g, at, class, operand.get()),
        ExprNode::Binary { left, right, .. } => {
            expression(g, at, class, left.get())?;
            expression(g, at, class, right.get())
        }
        ExprNode::Compare {
            left,
            right,
            rest,
            ..
        } => {
            expression(g, at, class, left.get())?;
            expression(g, at, class, right.get())?;
            links(g, at, class, rest.as_slice())
        }
        ExprNode::And { first, rest } => {
            expression(g, at, class, first.get())?;
            all(g, at, class, rest.as_slice())
        }
        ExprNode::Or { first, rest } => {
            expression(g, at, class, first.get())?;
            all(g, at, class, rest.as_slice())
        }
        ExprNode::Conditional {
            test,
            body,
            otherwise,
        } => {
            expression(g, at, class, body.get())?;
            expression(g, at, class, test.get())?;
            expression(g, at, class, otherwise.get())
        }
        ExprNode::Call {
            callee,
            arguments: values,
        } => {
            expression(g, at, class, callee.get())?;
            arguments(g, at, class, values.as_slice())
        }
        ExprNode::Lambda {
            parameters: names,
            body,
            ..
        } => {
            let inside = g.open_function(at)?;
            parameters(g, at, inside, class, names)?;
            expression(g, inside, class, body.get())
        }
        ExprNode::ListComprehension { item, first, rest } => {
            let inside = g.open_comprehension(at)?;
            expression(g, inside, class, item.get())?;
            first_clause(g, at, inside, class, first.get())?;
            clauses(g, inside, class, rest.as_slice())
        }
        ExprNode::SetComprehension { item, first, rest } => {
            let inside = g.open_comprehension(at)?;
            expression(g, inside, class, item.get())?;
            first_clause(g, at, inside, class, first.get())?;
            clauses(g, inside, class, rest.as_slice())
        }
        ExprNode::DictComprehension {
            key,
            value,
            first,
            rest,
        } => {
            let inside = g.open_comprehension(at)?;
            expression(g, inside, class, key.get())?;
            expression(g, inside, class, value.get())?;
            first_clause(g, at, inside, class, first.get())?;
            clauses(g, inside, class, rest.as_slice())
        }
        ExprNode::Generator {
            item,
            first,
            rest,
            ..
        } => {
            let inside = g.open_generator(at)?;
            expression(g, inside, class, item.get())?;
            first_clause(g, at, inside, class, first.get())?;
            clauses(g, inside, class, rest.as_slice())
        }
        ExprNode::Yield(value) => {
            g.gives(at, e.line)?;
            boxed(g, at, class, value)
        }
        ExprNode::YieldFrom(iterable) => {
            g.gives(at, e.line)?;
            expression(g, at, class, iterable.get())
        }
    }
}

#[cycle(expressions)]
#[tactic(auto, using(pt_tree::proofs::Folds::expressions, crate::proofs::Behind::parts))]
fn boxed(g: &mut Gatherer, at: Context, class: &str, e: &Option<Boxed<Expr>>) -> Result<(), Memory>
    ensures { OnOk result (g.new ≡ behind g.old (places_opt at class.now (opt_exp e.now))) }
{
    match e {
        None => Ok(()),
        Some(e) => expression(g, at, class, e.get()),
    }
}

#[cycle(expressions)]
#[tactic(auto, using(pt_tree::proofs::Folds::expressions, crate::proofs::Behind::parts))]
fn all(g: &mut Gatherer, at: Context, class: &str, items: &[Expr]) -> Result<(), Memory>
    ensures { OnOk result
        (g.new ≡ behind g.old (places_all at class.now (all_of (map exp_of items.now)))) }
{
    for item in items {
        expression(g, at, class, item)?;
    }
    Ok(())
}

#[cycle(expressions)]
#[tactic(auto, using(pt_tree::proofs::Folds::expressions, crate::proofs::Behind::parts))]
fn links(g: &mut Gatherer, at: Context, class: &str, rest: &[Comparison]) -> Result<(), Memory>
    ensures { OnOk result
        (g.new ≡ behind g.old
        (places_links at class.now (chained no_links (map link_of rest.now)))) }
{
    for link in rest {
        expression(g, at, class, &link.right)?;
    }
    Ok(())
}

#[cycle(expressions)]
#[tactic(auto, using(pt_tree::proofs::Folds::expressions, crate::proofs::Behind::parts))]
fn entries(g: &mut Gatherer, at: Context, class: &str, items: &[Entry]) -> Result<(), Memory>
    ensures { OnOk result
        (g.new ≡ behind g.old
        (places_entries at class.now (chained no_entries (map entry_of items.now)))) }
{
    for entry in items {
        expression(g, at, class, &entry.key)?;
        expression(g, at, class, &entry.value)?;
    }
    Ok(())
}

#[cycle(expressions)]
#[tactic(auto, using(pt_tree::proofs::Folds::expressions, crate::proofs::Behind::parts))]
fn pieces(g: &mut Gatherer, at: Context, class: &str, parts: &[Piece]) -> Result<(), Memory>
    ensures { OnOk result
        (g.new ≡ behind g.old
        (places_pieces at class.now (chained no_pieces (map piece_of parts.now)))) }
{
    for part in parts {
        piece(g, at, class, part)?;
    }
    Ok(())
}

#[cycle(expressions)]
#[tactic(auto, using(pt_tree::proofs::Folds::expressions, crate::proofs::Behind::parts))]
fn piece(g: &mut Gatherer, at: Context, class: &str, part: &Piece) -> Result<(), Memory>
    ensures { OnOk result
        ((r : _) → behind g.new (places_pieces at class.now r)
        ≡ behind g.old (places_pieces at class.now (piece_of part.now r))) }
{
    match part {
        Piece::Literal { .. } => Ok(()),
        Piece::Field { value, spec, .. } => {
            expression(g, at, class, value.get())?;
            pieces(g, at, class, spec.as_slice())
        }
    }
}

#[cycle(expressions)]
#[tactic(auto, using(pt_tree::proofs::Folds::expressions, crate::proofs::Behind::parts))]
fn arguments(g: &mut Gatherer, at: Context, class: &str, values: &[Argument]) -> Result<(), Memory>
    ensures { OnOk result
        (g.new ≡ behind g.old
        (places_args at class.now (chained no_args (map argument_of values.now)))) }
{
    for value in values {
        argument(g, at, class, value)?;
    }
    Ok(())
}

#[cycle(expressions)]
#[tactic(auto, using(pt_tree::proofs::Folds::expressions, crate::proofs::Behind::parts))]
fn argument(g: &mut Gatherer, at: Context, class: &str, value: &Argument) -> Result<(), Memory>
    ensures { OnOk result
        ((r : _) → behind g.new (places_args at class.now r)
        ≡ behind g.old (places_args at class.now (argument_of value.now r))) }
{
    match value {
        Argument::Positional(value) => expression(g, at, class, value),
        Argument::Named { value, .. } => expression(g, at, class, value),
        Argument::Spread(value) => expression(g, at, class, value),
        Argument::SpreadNamed(value) => expression(g, at, class, value),
    }
}

/// The first clause of a comprehension, whose iterable stands outside of it.
#[cycle(expressions)]
#[tactic(auto, using(pt_tree::proofs::Folds::expressions, crate::proofs::Behind::parts))]
fn first_clause(
    g: &mut Gatherer,
    at: Context,
    inside: Context,
    class: &str,
    first: &Clause,
) -> Result<(), Memory>
    ensures { OnOk result
        (g.new ≡ behind (behind (behind g.old
        (places_target inside class.now (clause_of first.now).target))
        (places_exp at class.now (clause_of first.now).iterable))
        (places_conditions inside class.now (clause_of first.now).conditions)) }
{
    target(g, inside, class, &first.target)?;
    expression(g, at, class, &first.iterable)?;
    conditions(g, inside, class, first.conditions.as_slice())
}

#[cycle(expressions)]
#[tactic(auto, using(pt_tree::proofs::Folds::expressions, crate::proofs::Behind::parts))]
fn conditions(g: &mut Gatherer, at: Context, class: &str, tests: &[Expr]) -> Result<(), Memory>
    ensures { OnOk result
        (g.new ≡ behind g.old (places_conditions at class.now (map exp_of tests.now))) }
{
    for test in tests {
        expression(g, at, class, test)?;
    }
    Ok(())
}

/// The clauses behind the first.
#[cycle(expressions)]
#[tactic(auto, using(pt_tree::proofs::Folds::expressions, crate::proofs::Behind::parts))]
fn clauses(g: &mut Gatherer, at: Context, class: &str, rest: &[Clause]) -> Result<(), Memory>
    ensures { OnOk result
        (g.new ≡ behind g.old (places_clauses at class.now (clauses_of (map clause_of rest.now)))) }
{
    for clause in rest {
        first_clause(g, at, at, class, clause)?;
    }
    Ok(())
}

#[cycle(expressions)]
#[tactic(auto, using(pt_tree::proofs::Folds::expressions, crate::proofs::Behind::parts))]
pub fn place(
    g: &mut Gatherer,
    at: Context,
    class: &str,
    line: Line,
    place: &PlaceNode,
) -> Result<(), Memory>
    ensures { OnOk result
        (g.new ≡ behind g.old (places_place at class.now (place_node_of place.now line.0))) }
{
    match place {
        PlaceNode::Name(name) => g.tell(Role::Bind, at, class, name.as_str(), line),
        PlaceNode::Attribute { object, .. } => expression(g, at, class, object.get()),
        PlaceNode::Item { object, index } => {
            expression(g, at, class, object.get())?;
            expression(g, at, class, index.get())
        }
    }
}

#[cycle(expressions)]
#[tactic(auto, using(pt_tree::proofs::Folds::expressions, crate::proofs::Behind::parts))]
pub fn target(g: &mut Gatherer, at: Context, class: &str, t: &Target) -> Result<(), Memory>
    ensures { OnOk result (g.new ≡ behind g.old (places_target at class.now (target_of t.now))) }
{
    match &t.node {
        TargetNode::Place(node) => place(g, at, class, t.line, node),
        TargetNode::Tuple(parts) => targets(g, at, class, parts.as_slice()),
        TargetNode::List(parts) => targets(g, at, class, parts.as_slice()),
        TargetNode::Starred(part) => target(g, at, class, part.get()),
    }
}

#[cycle(expressions)]
#[tactic(auto, using(pt_tree::proofs::Folds::expressions, crate::proofs::Behind::parts))]
pub fn targets(g: &mut Gatherer, at: Context, class: &str, parts: &[Target]) -> Result<(), Memory>
    ensures { OnOk result
        (g.new ≡ behind g.old
        (places_targets at class.now (targets_of (map target_of parts.now)))) }
{
    for part in parts {
        target(g, at, class, part)?;
    }
    Ok(())
}

/// Parameters are names of the function, and their defaults stand outside of it.
#[cycle(expressions)]
#[tactic(auto, using(pt_tree::proofs::Folds::expressions, crate::proofs::Behind::parts))]
pub fn parameters(
    g: &mut Gatherer,
    at: Context,
    inside: Context,
    class: &str,
    names: &Parameters,
) -> Result<(), Memory>
    ensures { OnOk result
        (g.new ≡ behind g.old (places_params at inside class.now (parameters_of names.now))) }
{
    formals(g, at, inside, class, names.positional.as_slice())?;
    named_parameter(g, inside, class, &names.star)?;
    formals(g, at, inside, class, names.keyword_only.as_slice())?;
    named_parameter(g, inside, class, &names.double_star)
}

#[tactic(auto, using(crate::proofs::Behind::parts))]
fn named_parameter(
    g: &mut Gatherer,
    inside: Context,
    class: &str,
    parameter: &Option<NamedParameter>,
) -> Result<(), Memory>
    ensures { OnOk result
        (g.new ≡ behind g.old (places_named_parameter inside class.now parameter.now)) }
{
    match parameter {
        None => Ok(()),
        Some(p) => g.tell(Role::Parameter, inside, class, p.name.as_str(), p.line),
    }
}

#[cycle(expressions)]
#[tactic(auto, using(pt_tree::proofs::Folds::expressions, crate::proofs::Behind::parts))]
fn formals(
    g: &mut Gatherer,
    at: Context,
    inside: Context,
    class: &str,
    names: &[Parameter],
) -> Result<(), Memory>
    ensures { OnOk result
        (g.new ≡ behind g.old
        (places_formals at inside class.now (chained no_formals (map formal_of names.now)))) }
{
    for p in names {
        g.tell(Role::Parameter, inside, class, p.name.as_str(), p.line)?;
        boxed(g, at, class, &p.default)?;
    }
    Ok(())
}
