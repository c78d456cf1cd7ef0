//! Visits the blocks in expressions and targets.

ghost use Rattle.std.specs.Prelude.{◌≡◌, OnOk, map};
ghost use Rattle.pt_tree.specs.Blocks.{blocks_all, blocks_args, blocks_clauses, blocks_entries, blocks_exp, blocks_formals, blocks_links, blocks_opt, blocks_params, blocks_pieces, blocks_place, blocks_target, blocks_targets};
ghost use Rattle.pt_tree.specs.Fold.{all_of, argument_of, chained, clause_of, clauses_of, entry_of, exp_of, formal_of, link_of, opt_exp, parameters_of, piece_of, place_node_of, target_of, targets_of};
ghost use Rattle.pt_blocks.specs.Visits.{blocks_clause, behind_blocks};
ghost use Rattle.pt_tree.specs.Syntax.{no_args, no_entries, no_formals, no_links, no_pieces};

use crate::visitor::BlockVisitor;
use pt_base::{Boxed, Line, Memory};
use pt_tree::{
    Argument, Clause, Comparison, Entry, Expr, ExprNode, Parameter, Parameters, Piece, PlaceNode,
    Target, TargetNode,
};

#[cycle(blocks)]
#[tactic(auto, using(pt_tree::proofs::Folds::expressions, crate::proofs::Walk::blocks))]
pub fn visit_expression<V: BlockVisitor>(visitor: &mut V, e: &Expr) -> Result<(), Memory>
    ensures { OnOk result
        (visitor.new ≡ behind_blocks V.behind (blocks_exp (exp_of e.now)) visitor.old) }
{
    match &e.node {
        ExprNode::Constant(_) => Ok(()),
        ExprNode::Name(_) => Ok(()),
        ExprNode::Joined(pieces) => visit_pieces(visitor, pieces.as_slice()),
        ExprNode::Tuple(items) => visit_all(visitor, items.as_slice()),
        ExprNode::List(items) => visit_all(visitor, items.as_slice()),
        ExprNode::Set(items) => visit_all(visitor, items.as_slice()),
        ExprNode::Dict(entries) => visit_entries(visitor, entries.as_slice()),
        ExprNode::Attribute { object, .. } => visit_expression(visitor, object.get()),
        ExprNode::Item { object, index } => {
            visit_expression(visitor, object.get())?;
            visit_expression(visitor, index.get())
        }
        ExprNode::Slice { start, stop, step } => {
            visit_boxed(visitor, start)?;
            visit_boxed(visitor, stop)?;
            visit_boxed(visitor, step)
        }
        ExprNode::Unary { operand, .. } => visit_expression(visitor, operand.get()),
        ExprNode::Not(operand) => visit_expression(visitor, operand.get()),
        ExprNode::Binary { left, right, .. } => {
            visit_expression(visitor, left.get())?;
            visit_expression(visitor, right.get())
        }
        ExprNode::Compare {
            left,
            right,
            rest,
            ..
        } => {
            visit_expression(visitor, left.get())?;
            visit_expression(visitor, right.get())?;
            visit_links(visitor, rest.as_slice())
        }
        ExprNode::And { first, rest } => {
            visit_expression(visitor, first.get())?;
            visit_all(visitor, rest.as_slice())
        }
        ExprNode::Or { first, rest } => {
            visit_expression(visitor, first.get())?;
            visit_all(visitor, rest.as_slice())
        }
        ExprNode::Conditional {
            test,
            body,
            otherwise,
        } => {
            visit_expression(visitor, body.get())?;
            visit_expression(visitor, test.get())?;
            visit_expression(visitor, otherwise.get())
        }
        ExprNode::Call { callee, arguments } => {
            visit_expression(visitor, callee.get())?;
            visit_arguments(visitor, arguments.as_slice())
        }
        ExprNode::Lambda {
            parameters,
            body,
            ..
        } => {
            visitor.lambda(e.line, parameters, body.get())?;
            visit_parameters(visitor, parameters)?;
            visit_expression(visitor, body.get())
        }
        ExprNode::ListComprehension { item, first, rest } => {
            visit_expression(visitor, item.get())?;
            visit_clause(visitor, first.get())?;
            visit_clauses(visitor, rest.as_slice())
        }
        ExprNode::SetComprehension { item, first, rest } => {
            visit_expression(visitor, item.get())?;
            visit_clause(visitor, first.get())?;
            visit_clauses(visitor, rest.as_slice())
        }
        ExprNode::DictComprehension {
            key,
            value,
            first,
            rest,
        } => {
            visit_expression(visitor, key.get())?;
            visit_expression(visitor, value.get())?;
            visit_clause(visitor, first.get())?;
            visit_clauses(visitor, rest.as_slice())
        }
        ExprNode::Generator {
            item,
            first,
            rest,
            ..
        } => {
            visitor.generator(e.line, item.get(), first.get(), rest.as_slice())?;
            visit_expression(visitor, item.get())?;
            visit_clause(visitor, first.get())?;
            visit_clauses(visitor, rest.as_slice())
        }
        ExprNode::Yield(value) => visit_boxed(visitor, value),
        ExprNode::YieldFrom(iterable) => visit_expression(visitor, iterable.get()),
    }
}

#[cycle(blocks)]
#[tactic(auto, using(pt_tree::proofs::Folds::expressions, crate::proofs::Walk::blocks))]
fn visit_boxed<V: BlockVisitor>(visitor: &mut V, e: &Option<Boxed<Expr>>) -> Result<(), Memory>
    ensures { OnOk result
        (visitor.new ≡ behind_blocks V.behind (blocks_opt (opt_exp e.now)) visitor.old) }
{
    match e {
        None => Ok(()),
        Some(e) => visit_expression(visitor, e.get()),
    }
}

#[cycle(blocks)]
#[tactic(auto, using(pt_tree::proofs::Folds::expressions, crate::proofs::Walk::blocks))]
fn visit_all<V: BlockVisitor>(visitor: &mut V, items: &[Expr]) -> Result<(), Memory>
    ensures { OnOk result
        (visitor.new
        ≡ behind_blocks V.behind (blocks_all (all_of (map exp_of items.now))) visitor.old) }
{
    for item in items {
        visit_expression(visitor, item)?;
    }
    Ok(())
}

#[cycle(blocks)]
#[tactic(auto, using(pt_tree::proofs::Folds::expressions, crate::proofs::Walk::blocks))]
fn visit_links<V: BlockVisitor>(visitor: &mut V, rest: &[Comparison]) -> Result<(), Memory>
    ensures { OnOk result
        (visitor.new
        ≡ behind_blocks V.behind (blocks_links (chained no_links (map link_of rest.now)))
        visitor.old) }
{
    for link in rest {
        visit_expression(visitor, &link.right)?;
    }
    Ok(())
}

#[cycle(blocks)]
#[tactic(auto, using(pt_tree::proofs::Folds::expressions, crate::proofs::Walk::blocks))]
fn visit_entries<V: BlockVisitor>(visitor: &mut V, entries: &[Entry]) -> Result<(), Memory>
    ensures { OnOk result
        (visitor.new
        ≡ behind_blocks V.behind
        (blocks_entries (chained no_entries (map entry_of entries.now))) visitor.old) }
{
    for entry in entries {
        visit_expression(visitor, &entry.key)?;
        visit_expression(visitor, &entry.value)?;
    }
    Ok(())
}

/// The parts of an f-string, or of a field's spec.
#[cycle(blocks)]
#[tactic(auto, using(pt_tree::proofs::Folds::expressions, crate::proofs::Walk::blocks))]
fn visit_pieces<V: BlockVisitor>(visitor: &mut V, pieces: &[Piece]) -> Result<(), Memory>
    ensures { OnOk result
        (visitor.new
        ≡ behind_blocks V.behind
        (blocks_pieces (chained no_pieces (map piece_of pieces.now))) visitor.old) }
{
    for piece in pieces {
        visit_piece(visitor, piece)?;
    }
    Ok(())
}

#[cycle(blocks)]
#[tactic(auto, using(pt_tree::proofs::Folds::expressions, crate::proofs::Walk::blocks))]
fn visit_piece<V: BlockVisitor>(visitor: &mut V, piece: &Piece) -> Result<(), Memory>
    ensures { OnOk result
        (visitor.new
        ≡ behind_blocks V.behind (blocks_pieces (piece_of piece.now no_pieces)) visitor.old) }
{
    match piece {
        Piece::Literal { .. } => Ok(()),
        Piece::Field { value, spec, .. } => {
            visit_expression(visitor, value.get())?;
            visit_pieces(visitor, spec.as_slice())
        }
    }
}

#[cycle(blocks)]
#[tactic(auto, using(pt_tree::proofs::Folds::expressions, crate::proofs::Walk::blocks))]
fn visit_arguments<V: BlockVisitor>(visitor: &mut V, arguments: &[Argument]) -> Result<(), Memory>
    ensures { OnOk result
        (visitor.new
        ≡ behind_blocks V.behind
        (blocks_args (chained no_args (map argument_of arguments.now))) visitor.old) }
{
    for argument in arguments {
        visit_argument(visitor, argument)?;
    }
    Ok(())
}

#[cycle(blocks)]
#[tactic(auto, using(pt_tree::proofs::Folds::expressions, crate::proofs::Walk::blocks))]
fn visit_argument<V: BlockVisitor>(visitor: &mut V, argument: &Argument) -> Result<(), Memory>
    ensures { OnOk result
        (visitor.new
        ≡ behind_blocks V.behind (blocks_args (argument_of argument.now no_args)) visitor.old) }
{
    match argument {
        Argument::Positional(value) => visit_expression(visitor, value),
        Argument::Named { value, .. } => visit_expression(visitor, value),
        Argument::Spread(value) => visit_expression(visitor, value),
        Argument::SpreadNamed(value) => visit_expression(visitor, value),
    }
}

#[cycle(blocks)]
#[tactic(auto, using(pt_tree::proofs::Folds::expressions, crate::proofs::Walk::blocks))]
fn visit_clause<V: BlockVisitor>(visitor: &mut V, clause: &Clause) -> Result<(), Memory>
    ensures { OnOk result
        (visitor.new ≡ behind_blocks V.behind (blocks_clause (clause_of clause.now)) visitor.old) }
{
    visit_target(visitor, &clause.target)?;
    visit_expression(visitor, &clause.iterable)?;
    visit_all(visitor, clause.conditions.as_slice())
}

/// The clauses behind the first.
#[cycle(blocks)]
#[tactic(auto, using(pt_tree::proofs::Folds::expressions, crate::proofs::Walk::blocks))]
fn visit_clauses<V: BlockVisitor>(visitor: &mut V, clauses: &[Clause]) -> Result<(), Memory>
    ensures { OnOk result
        (visitor.new
        ≡ behind_blocks V.behind (blocks_clauses (clauses_of (map clause_of clauses.now)))
        visitor.old) }
{
    for clause in clauses {
        visit_clause(visitor, clause)?;
    }
    Ok(())
}

#[cycle(blocks)]
#[tactic(auto, using(pt_tree::proofs::Folds::expressions, crate::proofs::Walk::blocks))]
pub fn visit_place<V: BlockVisitor>(
    visitor: &mut V,
    line: Line,
    place: &PlaceNode,
) -> Result<(), Memory>
    ensures { OnOk result
        (visitor.new
        ≡ behind_blocks V.behind (blocks_place (place_node_of place.now line.0)) visitor.old) }
{
    match place {
        PlaceNode::Name(_) => Ok(()),
        PlaceNode::Attribute { object, .. } => visit_expression(visitor, object.get()),
        PlaceNode::Item { object, index } => {
            visit_expression(visitor, object.get())?;
            visit_expression(visitor, index.get())
        }
    }
}

#[cycle(blocks)]
#[tactic(auto, using(pt_tree::proofs::Folds::expressions, crate::proofs::Walk::blocks))]
pub fn visit_target<V: BlockVisitor>(visitor: &mut V, target: &Target) -> Result<(), Memory>
    ensures { OnOk result
        (visitor.new ≡ behind_blocks V.behind (blocks_target (target_of target.now)) visitor.old) }
{
    match &target.node {
        TargetNode::Place(place) => visit_place(visitor, target.line, place),
        TargetNode::Tuple(targets) => visit_targets(visitor, targets.as_slice()),
        TargetNode::List(targets) => visit_targets(visitor, targets.as_slice()),
        TargetNode::Starred(target) => visit_target(visitor, target.get()),
    }
}

#[cycle(blocks)]
#[tactic(auto, using(pt_tree::proofs::Folds::expressions, crate::proofs::Walk::blocks))]
pub fn visit_targets<V: BlockVisitor>(visitor: &mut V, targets: &[Target]) -> Result<(), Memory>
    ensures { OnOk result
        (visitor.new
        ≡ behind_blocks V.behind (blocks_targets (targets_of (map target_of targets.now)))
        visitor.old) }
{
    for target in targets {
        visit_target(visitor, target)?;
    }
    Ok(())
}

/// The blocks in the defaults of parameters.
#[cycle(blocks)]
#[tactic(auto, using(pt_tree::proofs::Folds::expressions, crate::proofs::Walk::blocks))]
pub fn visit_parameters<V: BlockVisitor>(
    visitor: &mut V,
    parameters: &Parameters,
) -> Result<(), Memory>
    ensures { OnOk result
        (visitor.new
        ≡ behind_blocks V.behind (blocks_params (parameters_of parameters.now)) visitor.old) }
{
    visit_defaults(visitor, parameters.positional.as_slice())?;
    visit_defaults(visitor, parameters.keyword_only.as_slice())
}

#[cycle(blocks)]
#[tactic(auto, using(pt_tree::proofs::Folds::expressions, crate::proofs::Walk::blocks))]
fn visit_defaults<V: BlockVisitor>(visitor: &mut V, parameters: &[Parameter]) -> Result<(), Memory>
    ensures { OnOk result
        (visitor.new
        ≡ behind_blocks V.behind
        (blocks_formals (chained no_formals (map formal_of parameters.now))) visitor.old) }
{
    for parameter in parameters {
        visit_boxed(visitor, &parameter.default)?;
    }
    Ok(())
}
