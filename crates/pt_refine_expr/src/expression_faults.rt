//! The first fault of an expression, and of what stands in a target's place (Language Reference 6,
//! 7.2). Each check stops at the first fault of its part, in source order.

ghost use Rattle.std.specs.Prelude.{◌≡◌, [], ◌∷◌, map, option_map, if◌then◌else◌};
ghost use Rattle.std.specs.Option.{option_or};
ghost use Rattle.pt_refine_expr.specs.Faults.{bad_target, faults_all, faults_args, faults_clauses, faults_entries, faults_entry, faults_exp, faults_formals, faults_links, faults_operator, faults_opt, faults_params, faults_pieces, faults_slash, faults_star, faults_target, faults_targets};
ghost use Rattle.pt_refine_expr.specs.First.{first_of, stop_of};
ghost use Rattle.pt_refine_expr.specs.Targets.{are_targets as are_targets_of, opened};
ghost use Rattle.pt_tree.specs.Fold.{chained};
ghost use Rattle.pt_wide.specs.Fold.{all_of, argument_of, clause_of, entries_of, entry_of, exp_of, formal_of, line_of, link_of, opt_exp, parameters_of, piece_of};
ghost use Rattle.pt_wide.specs.Syntax.{no_args, no_clauses, no_formals, no_links, no_pieces};

use crate::fault::Fault;
use crate::forms::{are_targets, is_inside_target};
use crate::stars::Stars;
use pt_base::{Boxed, Line};
use pt_wide::{
    WideArgument, WideBinOp, WideClause, WideComparison, WideEntry, WideExpr, WideNode,
    WideParameter, WideParameters, WidePiece,
};

#[cycle(expressions)]
#[tactic(auto, using(crate::proofs::Stops::stops))]
pub fn check_expression(e: &WideExpr) -> Result<(), Fault>
    ensures { stop_of result ≡ first_of (faults_exp (exp_of e.now)) }
{
    match &e.node {
        WideNode::Constant(_) => Ok(()),
        WideNode::Name(_) => Ok(()),
        WideNode::Joined(pieces) => check_pieces(pieces.as_slice()),
        WideNode::Parenthesized(inside) => check_expression(inside.get()),
        WideNode::Starred(_) => Err(Fault::Excluded { line: e.line }),
        WideNode::Tuple(items) => check_all(items.as_slice()),
        WideNode::List(items) => check_all(items.as_slice()),
        WideNode::Set(items) => check_all(items.as_slice()),
        WideNode::Dict(entries) => check_entries(entries.as_slice()),
        WideNode::Attribute { object, .. } => check_expression(object.get()),
        WideNode::Item { object, index } => {
            check_expression(object.get())?;
            check_expression(index.get())
        }
        WideNode::Slice { start, stop, step } => {
            check_optional(start)?;
            check_optional(stop)?;
            check_optional(step)
        }
        WideNode::Unary { operand, .. } => check_expression(operand.get()),
        WideNode::Not(operand) => check_expression(operand.get()),
        WideNode::Binary {
            left,
            operator,
            right,
        } => {
            check_operator(e.line, *operator)?;
            check_expression(left.get())?;
            check_expression(right.get())
        }
        WideNode::Compare {
            left,
            right,
            rest,
            ..
        } => {
            check_expression(left.get())?;
            check_expression(right.get())?;
            check_links(rest.as_slice())
        }
        WideNode::And { first, rest } => {
            check_expression(first.get())?;
            check_all(rest.as_slice())
        }
        WideNode::Or { first, rest } => {
            check_expression(first.get())?;
            check_all(rest.as_slice())
        }
        WideNode::Conditional {
            test,
            body,
            otherwise,
        } => {
            check_expression(body.get())?;
            check_expression(test.get())?;
            check_expression(otherwise.get())
        }
        WideNode::Call { callee, arguments } => {
            check_expression(callee.get())?;
            check_arguments(arguments.as_slice())
        }
        WideNode::Lambda { parameters, body } => {
            check_parameters(parameters)?;
            check_expression(body.get())
        }
        WideNode::Comprehension {
            item,
            first,
            rest,
            ..
        } => {
            check_expression(item.get())?;
            check_clause(first.get())?;
            check_clauses(rest.as_slice())
        }
        WideNode::DictComprehension { entry, first, rest } => {
            check_entry(entry.get())?;
            check_clause(first.get())?;
            check_clauses(rest.as_slice())
        }
        WideNode::Yield(value) => check_optional(value),
        WideNode::YieldFrom(iterable) => check_expression(iterable.get()),
    }
}

fn check_operator(line: Line, operator: WideBinOp) -> Result<(), Fault>
    ensures { stop_of result ≡ first_of (faults_operator line.0 operator) }
{
    match operator {
        WideBinOp::Plain(_) => Ok(()),
        WideBinOp::MatMul => Err(Fault::Excluded { line }),
    }
}

#[cycle(expressions)]
#[tactic(auto, using(crate::proofs::Stops::stops))]
fn check_optional(e: &Option<Boxed<WideExpr>>) -> Result<(), Fault>
    ensures { stop_of result ≡ first_of (faults_opt (opt_exp e.now)) }
{
    match e {
        None => Ok(()),
        Some(e) => check_expression(e.get()),
    }
}

#[cycle(expressions)]
#[tactic(auto, using(crate::proofs::Stops::stops))]
fn check_all(items: &[WideExpr]) -> Result<(), Fault>
    ensures { stop_of result ≡ first_of (faults_all (all_of (map exp_of items.now))) }
{
    for item in items {
        check_expression(item)?;
    }
    Ok(())
}

/// The parts of an f-string, or of a field's spec.
#[cycle(expressions)]
#[tactic(auto, using(crate::proofs::Stops::stops))]
fn check_pieces(pieces: &[WidePiece]) -> Result<(), Fault>
    ensures { stop_of result ≡ first_of (faults_pieces (chained no_pieces (map piece_of pieces.now))) }
{
    for piece in pieces {
        check_piece(piece)?;
    }
    Ok(())
}

#[cycle(expressions)]
#[tactic(auto, using(crate::proofs::Stops::stops))]
fn check_piece(piece: &WidePiece) -> Result<(), Fault>
    ensures { (r : _) → first_of (faults_pieces (piece_of piece.now r)) ≡ option_or (stop_of result) (first_of (faults_pieces r)) }
{
    match piece {
        WidePiece::Literal { .. } => Ok(()),
        WidePiece::Field { value, spec, .. } => {
            check_expression(value.get())?;
            check_pieces(spec.as_slice())
        }
    }
}

#[cycle(expressions)]
#[tactic(auto, using(crate::proofs::Stops::stops))]
fn check_entries(entries: &[WideEntry]) -> Result<(), Fault>
    ensures { stop_of result ≡ first_of (faults_entries (entries_of (map entry_of entries.now))) }
{
    for entry in entries {
        check_entry(entry)?;
    }
    Ok(())
}

#[cycle(expressions)]
#[tactic(auto, using(crate::proofs::Stops::stops))]
fn check_entry(entry: &WideEntry) -> Result<(), Fault>
    ensures { stop_of result ≡ first_of (faults_entry (entry_of entry.now)) }
{
    match entry {
        WideEntry::Pair { key, value } => {
            check_expression(key)?;
            check_expression(value)
        }
        WideEntry::Spread { line, .. } => Err(Fault::Excluded { line: *line }),
    }
}

#[cycle(expressions)]
#[tactic(auto, using(crate::proofs::Stops::stops))]
fn check_links(rest: &[WideComparison]) -> Result<(), Fault>
    ensures { stop_of result ≡ first_of (faults_links (chained no_links (map link_of rest.now))) }
{
    for link in rest {
        check_expression(&link.right)?;
    }
    Ok(())
}

#[cycle(expressions)]
#[tactic(auto, using(crate::proofs::Stops::stops))]
pub fn check_arguments(arguments: &[WideArgument]) -> Result<(), Fault>
    ensures { stop_of result ≡ first_of (faults_args (chained no_args (map argument_of arguments.now))) }
{
    for argument in arguments {
        check_argument(argument)?;
    }
    Ok(())
}

#[cycle(expressions)]
#[tactic(auto, using(crate::proofs::Stops::stops))]
fn check_argument(argument: &WideArgument) -> Result<(), Fault>
    ensures { (r : _) → first_of (faults_args (argument_of argument.now r)) ≡ option_or (stop_of result) (first_of (faults_args r)) }
{
    match argument {
        WideArgument::Positional(value) => check_expression(value),
        WideArgument::Named { value, .. } => check_expression(value),
        WideArgument::Spread { value, .. } => check_expression(value),
        WideArgument::SpreadNamed { value, .. } => check_expression(value),
    }
}

#[cycle(expressions)]
#[tactic(auto, using(crate::proofs::Stops::stops))]
fn check_clauses(clauses: &[WideClause]) -> Result<(), Fault>
    ensures { stop_of result ≡ first_of (faults_clauses (chained no_clauses (map clause_of clauses.now))) }
{
    for clause in clauses {
        check_clause(clause)?;
    }
    Ok(())
}

/// A clause of a comprehension.
#[cycle(expressions)]
#[tactic(auto, using(crate::proofs::Stops::stops))]
fn check_clause(clause: &WideClause) -> Result<(), Fault>
    ensures { (r : _) → first_of (faults_clauses (clause_of clause.now r)) ≡ option_or (stop_of result) (first_of (faults_clauses r)) }
{
    check_target(Stars::Inside, &clause.target)?;
    check_expression(&clause.iterable)?;
    check_all(clause.conditions.as_slice())
}

#[cycle(expressions)]
#[tactic(auto, using(crate::proofs::Stops::stops))]
pub fn check_parameters(parameters: &WideParameters) -> Result<(), Fault>
    ensures { stop_of result ≡ first_of (faults_params (parameters_of parameters.now)) }
{
    let before = parameters.positional_only.as_slice();
    check_formals(before)?;
    check_slash(before, parameters.slash)?;
    check_formals(parameters.positional.as_slice())?;
    check_formals(parameters.keyword_only.as_slice())
}

/// The `/` behind the parameters that stand before it.
fn check_slash(before: &[WideParameter], slash: Option<Line>) -> Result<(), Fault>
    ensures { stop_of result ≡ first_of (faults_slash (chained no_formals (map formal_of before.now)) (line_of slash)) }
{
    match slash {
        Some(line) => Err(Fault::Excluded { line }),
        None => match before.first() {
            Some(parameter) => Err(Fault::Excluded {
                line: parameter.line,
            }),
            None => Ok(()),
        },
    }
}

#[cycle(expressions)]
#[tactic(auto, using(crate::proofs::Stops::stops))]
fn check_formals(parameters: &[WideParameter]) -> Result<(), Fault>
    ensures { stop_of result ≡ first_of (faults_formals (chained no_formals (map formal_of parameters.now))) }
{
    for parameter in parameters {
        check_optional(&parameter.annotation)?;
        check_optional(&parameter.default)?;
    }
    Ok(())
}

/// What stands in a target's place.
#[cycle(expressions)]
#[tactic(auto, using(crate::proofs::Stops::stops))]
pub fn check_target(stars: Stars, e: &WideExpr) -> Result<(), Fault>
    ensures { stop_of result ≡ first_of (faults_target stars (exp_of e.now)) }
{
    match &e.node {
        WideNode::Name(_) => Ok(()),
        WideNode::Attribute { object, .. } => check_expression(object.get()),
        WideNode::Item { object, index } => {
            check_expression(object.get())?;
            check_expression(index.get())
        }
        WideNode::Tuple(items) => check_bracketed(stars, e.line, items.as_slice()),
        WideNode::List(items) => check_bracketed(stars, e.line, items.as_slice()),
        WideNode::Parenthesized(inside) => {
            if is_inside_target(inside.get()) {
                check_target(stars.alone(), inside.get())
            } else {
                Err(Fault::BadTarget { line: e.line })
            }
        }
        WideNode::Starred(item) => {
            check_star(stars, e.line)?;
            check_target(stars.alone(), item.get())
        }
        _ => Err(Fault::BadTarget { line: e.line }),
    }
}

/// The items of a tuple or list in a target's place.
#[cycle(expressions)]
#[tactic(auto, using(crate::proofs::Stops::stops))]
fn check_bracketed(stars: Stars, line: Line, items: &[WideExpr]) -> Result<(), Fault>
    ensures { stop_of result ≡ first_of (if are_targets_of (all_of (map exp_of items.now)) then faults_targets (opened stars) (all_of (map exp_of items.now)) else bad_target line.0 ∷ []) }
{
    if are_targets(items) {
        check_targets(stars.opened(), items)
    } else {
        Err(Fault::BadTarget { line })
    }
}

fn check_star(stars: Stars, line: Line) -> Result<(), Fault>
    ensures { stop_of result ≡ first_of (faults_star line.0 stars) }
{
    match stars {
        Stars::Never => Err(Fault::BadTarget { line }),
        Stars::Inside => Err(Fault::BadTarget { line }),
        Stars::Here => Ok(()),
    }
}

/// The items of a list of targets, from a place on at which stars may stand so.
#[cycle(expressions)]
#[tactic(auto, using(crate::proofs::Stops::stops))]
pub fn check_targets(mut stars: Stars, items: &[WideExpr]) -> Result<(), Fault>
    ensures { stop_of result ≡ first_of (faults_targets stars (all_of (map exp_of items.now))) }
{
    for item in items {
        check_target(stars, item)?;
        stars = stars.behind(item);
    }
    Ok(())
}
