//! The acts of the blocks in expressions and targets, put behind those of the blocks that start
//! before them.

ghost use Rattle.std.specs.Prelude.{◌≡◌, ◌++◌, OnOk, map, option_map};
ghost use Rattle.pt_tree.specs.Blocks.{acts_of, blocks_all, blocks_args, blocks_clauses, blocks_entries, blocks_exp, blocks_formals, blocks_links, blocks_opt, blocks_params, blocks_pieces, blocks_place, blocks_target, blocks_targets};
ghost use Rattle.pt_tree.specs.Fold.{all_of, argument_of, chained, clause_of, clauses_of, entry_of, exp_of, formal_of, link_of, opt_exp, parameters_of, piece_of, place_node_of, target_of, targets_of};
ghost use Rattle.pt_acts.specs.Parts.{blocks_clause};
ghost use Rattle.pt_tree.specs.Syntax.{no_args, no_entries, no_formals, no_links, no_pieces};

use crate::block_acts::BlockActs;
use pt_base::{Boxed, Line, Memory, Seq};
use pt_tree::{
    Argument, Clause, Comparison, Entry, Expr, ExprNode, Parameter, Parameters, Piece, PlaceNode,
    Target, TargetNode,
};
use std::alloc::Global;

#[cycle(blocks)]
#[tactic(auto, using(pt_tree::proofs::Folds::expressions, crate::proofs::Walk::blocks))]
pub fn collect_expression(alloc: Global, table: &mut Seq<BlockActs>, e: &Expr) -> Result<(), Memory>
    ensures { OnOk result (table.new ≡ table.old ++ map acts_of (blocks_exp (exp_of e.now))) }
{
    match &e.node {
        ExprNode::Constant(_) => Ok(()),
        ExprNode::Name(_) => Ok(()),
        ExprNode::Joined(pieces) => collect_pieces(alloc, table, pieces.as_slice()),
        ExprNode::Tuple(items) => collect_all(alloc, table, items.as_slice()),
        ExprNode::List(items) => collect_all(alloc, table, items.as_slice()),
        ExprNode::Set(items) => collect_all(alloc, table, items.as_slice()),
        ExprNode::Dict(entries) => collect_entries(alloc, table, entries.as_slice()),
        ExprNode::Attribute { object, .. } => collect_expression(alloc, table, object.get()),
        ExprNode::Item { object, index } => {
            collect_expression(alloc, table, object.get())?;
            collect_expression(alloc, table, index.get())
        }
        ExprNode::Slice { start, stop, step } => {
            collect_boxed(alloc, table, start)?;
            collect_boxed(alloc, table, stop)?;
            collect_boxed(alloc, table, step)
        }
        ExprNode::Unary { operand, .. } => collect_expression(alloc, table, operand.get()),
        ExprNode::Not(operand) => collect_expression(alloc, table, operand.get()),
        ExprNode::Binary { left, right, .. } => {
            collect_expression(alloc, table, left.get())?;
            collect_expression(alloc, table, right.get())
        }
        ExprNode::Compare {
            left,
            right,
            rest,
            ..
        } => {
            collect_expression(alloc, table, left.get())?;
            collect_expression(alloc, table, right.get())?;
            collect_links(alloc, table, rest.as_slice())
        }
        ExprNode::And { first, rest } => {
            collect_expression(alloc, table, first.get())?;
            collect_all(alloc, table, rest.as_slice())
        }
        ExprNode::Or { first, rest } => {
            collect_expression(alloc, table, first.get())?;
            collect_all(alloc, table, rest.as_slice())
        }
        ExprNode::Conditional {
            test,
            body,
            otherwise,
        } => {
            collect_expression(alloc, table, body.get())?;
            collect_expression(alloc, table, test.get())?;
            collect_expression(alloc, table, otherwise.get())
        }
        ExprNode::Call { callee, arguments } => {
            collect_expression(alloc, table, callee.get())?;
            collect_arguments(alloc, table, arguments.as_slice())
        }
        ExprNode::Lambda {
            parameters,
            body,
            ..
        } => {
            let acts = BlockActs::of_lambda(alloc, e.line, body.get())?;
            table.push(acts)?;
            collect_parameters(alloc, table, parameters)?;
            collect_expression(alloc, table, body.get())
        }
        ExprNode::ListComprehension { item, first, rest } => {
            collect_expression(alloc, table, item.get())?;
            collect_clause(alloc, table, first.get())?;
            collect_clauses(alloc, table, rest.as_slice())
        }
        ExprNode::SetComprehension { item, first, rest } => {
            collect_expression(alloc, table, item.get())?;
            collect_clause(alloc, table, first.get())?;
            collect_clauses(alloc, table, rest.as_slice())
        }
        ExprNode::DictComprehension {
            key,
            value,
            first,
            rest,
        } => {
            collect_expression(alloc, table, key.get())?;
            collect_expression(alloc, table, value.get())?;
            collect_clause(alloc, table, first.get())?;
            collect_clauses(alloc, table, rest.as_slice())
        }
        ExprNode::Generator {
            item,
            first,
            rest,
            ..
        } => {
            let acts = BlockActs::of_generator(
                alloc,
                e.line,
                item.get(),
                first.get(),
                rest.as_slice(),
            )?;
            table.push(acts)?;
            collect_expression(alloc, table, item.get())?;
            collect_clause(alloc, table, first.get())?;
            collect_clauses(alloc, table, rest.as_slice())
        }
        ExprNode::Yield(value) => collect_boxed(alloc, table, value),
        ExprNode::YieldFrom(iterable) => collect_expression(alloc, table, iterable.get()),
    }
}

#[cycle(blocks)]
#[tactic(auto, using(pt_tree::proofs::Folds::expressions, crate::proofs::Walk::blocks))]
fn collect_boxed(
    alloc: Global,
    table: &mut Seq<BlockActs>,
    e: &Option<Boxed<Expr>>,
) -> Result<(), Memory>
    ensures { OnOk result (table.new ≡ table.old ++ map acts_of (blocks_opt (opt_exp e.now))) }
{
    match e {
        None => Ok(()),
        Some(e) => collect_expression(alloc, table, e.get()),
    }
}

#[cycle(blocks)]
#[tactic(auto, using(pt_tree::proofs::Folds::expressions, crate::proofs::Walk::blocks))]
fn collect_all(alloc: Global, table: &mut Seq<BlockActs>, items: &[Expr]) -> Result<(), Memory>
    ensures { OnOk result (table.new ≡ table.old ++ map acts_of (blocks_all (all_of (map exp_of items.now)))) }
{
    for item in items {
        collect_expression(alloc, table, item)?;
    }
    Ok(())
}

#[cycle(blocks)]
#[tactic(auto, using(pt_tree::proofs::Folds::expressions, crate::proofs::Walk::blocks))]
fn collect_links(
    alloc: Global,
    table: &mut Seq<BlockActs>,
    rest: &[Comparison],
) -> Result<(), Memory>
    ensures { OnOk result (table.new ≡ table.old ++ map acts_of (blocks_links (chained no_links (map link_of rest.now)))) }
{
    for link in rest {
        collect_expression(alloc, table, &link.right)?;
    }
    Ok(())
}

#[cycle(blocks)]
#[tactic(auto, using(pt_tree::proofs::Folds::expressions, crate::proofs::Walk::blocks))]
fn collect_entries(
    alloc: Global,
    table: &mut Seq<BlockActs>,
    entries: &[Entry],
) -> Result<(), Memory>
    ensures { OnOk result (table.new ≡ table.old ++ map acts_of (blocks_entries (chained no_entries (map entry_of entries.now)))) }
{
    for entry in entries {
        collect_expression(alloc, table, &entry.key)?;
        collect_expression(alloc, table, &entry.value)?;
    }
    Ok(())
}

/// The parts of an f-string, or of a field's spec.
#[cycle(blocks)]
#[tactic(auto, using(pt_tree::proofs::Folds::expressions, crate::proofs::Walk::blocks))]
fn collect_pieces(alloc: Global, table: &mut Seq<BlockActs>, pieces: &[Piece]) -> Result<(), Memory>
    ensures { OnOk result (table.new ≡ table.old ++ map acts_of (blocks_pieces (chained no_pieces (map piece_of pieces.now)))) }
{
    for piece in pieces {
        collect_piece(alloc, table, piece)?;
    }
    Ok(())
}

#[cycle(blocks)]
#[tactic(auto, using(pt_tree::proofs::Folds::expressions, crate::proofs::Walk::blocks))]
fn collect_piece(alloc: Global, table: &mut Seq<BlockActs>, piece: &Piece) -> Result<(), Memory>
    ensures { OnOk result (table.new ≡ table.old ++ map acts_of (blocks_pieces (piece_of piece.now no_pieces))) }
{
    match piece {
        Piece::Literal { .. } => Ok(()),
        Piece::Field { value, spec, .. } => {
            collect_expression(alloc, table, value.get())?;
            collect_pieces(alloc, table, spec.as_slice())
        }
    }
}

#[cycle(blocks)]
#[tactic(auto, using(pt_tree::proofs::Folds::expressions, crate::proofs::Walk::blocks))]
fn collect_arguments(
    alloc: Global,
    table: &mut Seq<BlockActs>,
    arguments: &[Argument],
) -> Result<(), Memory>
    ensures { OnOk result (table.new ≡ table.old ++ map acts_of (blocks_args (chained no_args (map argument_of arguments.now)))) }
{
    for argument in arguments {
        collect_argument(alloc, table, argument)?;
    }
    Ok(())
}

#[cycle(blocks)]
#[tactic(auto, using(pt_tree::proofs::Folds::expressions, crate::proofs::Walk::blocks))]
fn collect_argument(
    alloc: Global,
    table: &mut Seq<BlockActs>,
    argument: &Argument,
) -> Result<(), Memory>
    ensures { OnOk result (table.new ≡ table.old ++ map acts_of (blocks_args (argument_of argument.now no_args))) }
{
    match argument {
        Argument::Positional(value) => collect_expression(alloc, table, value),
        Argument::Named { value, .. } => collect_expression(alloc, table, value),
        Argument::Spread(value) => collect_expression(alloc, table, value),
        Argument::SpreadNamed(value) => collect_expression(alloc, table, value),
    }
}

#[cycle(blocks)]
#[tactic(auto, using(pt_tree::proofs::Folds::expressions, crate::proofs::Walk::blocks))]
fn collect_clause(alloc: Global, table: &mut Seq<BlockActs>, clause: &Clause) -> Result<(), Memory>
    ensures { OnOk result (table.new ≡ table.old ++ map acts_of (blocks_clause (clause_of clause.now))) }
{
    collect_target(alloc, table, &clause.target)?;
    collect_expression(alloc, table, &clause.iterable)?;
    collect_all(alloc, table, clause.conditions.as_slice())
}

/// The clauses behind the first.
#[cycle(blocks)]
#[tactic(auto, using(pt_tree::proofs::Folds::expressions, crate::proofs::Walk::blocks))]
fn collect_clauses(
    alloc: Global,
    table: &mut Seq<BlockActs>,
    clauses: &[Clause],
) -> Result<(), Memory>
    ensures { OnOk result (table.new ≡ table.old ++ map acts_of (blocks_clauses (clauses_of (map clause_of clauses.now)))) }
{
    for clause in clauses {
        collect_clause(alloc, table, clause)?;
    }
    Ok(())
}

#[cycle(blocks)]
#[tactic(auto, using(pt_tree::proofs::Folds::expressions, crate::proofs::Walk::blocks))]
pub fn collect_place(
    alloc: Global,
    table: &mut Seq<BlockActs>,
    line: Line,
    place: &PlaceNode,
) -> Result<(), Memory>
    ensures { OnOk result (table.new ≡ table.old ++ map acts_of (blocks_place (place_node_of place.now line.0))) }
{
    match place {
        PlaceNode::Name(_) => Ok(()),
        PlaceNode::Attribute { object, .. } => collect_expression(alloc, table, object.get()),
        PlaceNode::Item { object, index } => {
            collect_expression(alloc, table, object.get())?;
            collect_expression(alloc, table, index.get())
        }
    }
}

#[cycle(blocks)]
#[tactic(auto, using(pt_tree::proofs::Folds::expressions, crate::proofs::Walk::blocks))]
pub fn collect_target(
    alloc: Global,
    table: &mut Seq<BlockActs>,
    target: &Target,
) -> Result<(), Memory>
    ensures { OnOk result (table.new ≡ table.old ++ map acts_of (blocks_target (target_of target.now))) }
{
    match &target.node {
        TargetNode::Place(place) => collect_place(alloc, table, target.line, place),
        TargetNode::Tuple(targets) => collect_targets(alloc, table, targets.as_slice()),
        TargetNode::List(targets) => collect_targets(alloc, table, targets.as_slice()),
        TargetNode::Starred(target) => collect_target(alloc, table, target.get()),
    }
}

#[cycle(blocks)]
#[tactic(auto, using(pt_tree::proofs::Folds::expressions, crate::proofs::Walk::blocks))]
pub fn collect_targets(
    alloc: Global,
    table: &mut Seq<BlockActs>,
    targets: &[Target],
) -> Result<(), Memory>
    ensures { OnOk result (table.new ≡ table.old ++ map acts_of (blocks_targets (targets_of (map target_of targets.now)))) }
{
    for target in targets {
        collect_target(alloc, table, target)?;
    }
    Ok(())
}

/// The blocks in the defaults of parameters.
#[cycle(blocks)]
#[tactic(auto, using(pt_tree::proofs::Folds::expressions, crate::proofs::Walk::blocks))]
pub fn collect_parameters(
    alloc: Global,
    table: &mut Seq<BlockActs>,
    parameters: &Parameters,
) -> Result<(), Memory>
    ensures { OnOk result (table.new ≡ table.old ++ map acts_of (blocks_params (parameters_of parameters.now))) }
{
    collect_defaults(alloc, table, parameters.positional.as_slice())?;
    collect_defaults(alloc, table, parameters.keyword_only.as_slice())
}

#[cycle(blocks)]
#[tactic(auto, using(pt_tree::proofs::Folds::expressions, crate::proofs::Walk::blocks))]
fn collect_defaults(
    alloc: Global,
    table: &mut Seq<BlockActs>,
    parameters: &[Parameter],
) -> Result<(), Memory>
    ensures { OnOk result (table.new ≡ table.old ++ map acts_of (blocks_formals (chained no_formals (map formal_of parameters.now)))) }
{
    for parameter in parameters {
        collect_boxed(alloc, table, &parameter.default)?;
    }
    Ok(())
}
