//! The acts of statements, counted on from those that stand before them.

ghost use Rattle.std.specs.Prelude.{◌≡◌, ◌+◌, map, option_map, IfOk, OnOk};
ghost use Rattle.pt_tree.specs.Sizes.{all_deleted_size, branches_size, decorator_calls, decorators_size, deleted_size, handlers_size, items_size, opt_size, opt_target_size, place_size, stm_size, stms_size, stored_by};
ghost use Rattle.pt_tree.specs.Fold.{chained, opt_exp, place_of, target_of, targets_of};
ghost use Rattle.pt_tree.specs.StatementFold.{branch_of, decorators_of, handler_of, items_of, stm_of, stms_of};
ghost use Rattle.pt_tree.specs.Syntax.{no_branches, no_handlers};
ghost use Rattle.pt_act_counts.specs.Parts.{annotated_size};

use crate::count::add;
use crate::expressions::{
    count_expression, count_parameters, count_place, count_target, count_targets,
};
use pt_base::{Memory, Text};
use pt_tree::{
    Branch, Decorator, Expr, Handler, Place, Stmt, StmtNode, Target, TargetNode, WithItem,
};

/// How many acts the handlers of a `try` have (Language Reference 8.4.1).
///
/// # Errors
///
/// More than can be counted are want of memory.
pub fn handler_acts(handlers: &[Handler]) -> Result<u32, Memory>
    ensures { IfOk result
        (λ n. n ≡ handlers_size (chained no_handlers (map handler_of handlers.now))) }
{
    let mut acts = 0;
    count_handlers(&mut acts, handlers)?;
    Ok(acts)
}

fn count_optional(acts: &mut u32, e: &Option<Expr>) -> Result<(), Memory>
    ensures { OnOk result (acts.new ≡ acts.old + opt_size (opt_exp e.now)) }
{
    match e {
        None => Ok(()),
        Some(e) => count_expression(acts, e),
    }
}

/// The place of an augmented assignment, or of an annotated one.
fn count_changed(acts: &mut u32, place: &Place) -> Result<(), Memory>
    ensures { OnOk result (acts.new ≡ acts.old + place_size (place_of place.now)) }
{
    count_place(acts, &place.node)
}

/// An annotation isn't evaluated.
fn count_annotated(acts: &mut u32, place: &Place, value: &Option<Expr>) -> Result<(), Memory>
    ensures { OnOk result
        (acts.new ≡ acts.old + annotated_size (place_of place.now) (opt_exp value.now)) }
{
    match value {
        None => add(acts, 1),
        Some(value) => {
            count_expression(acts, value)?;
            count_changed(acts, place)
        }
    }
}

#[cycle(deleted)]
#[tactic(auto, using(pt_tree::proofs::Folds::expressions))]
fn count_deleted(acts: &mut u32, target: &Target) -> Result<(), Memory>
    ensures { OnOk result (acts.new ≡ acts.old + deleted_size (target_of target.now)) }
{
    match &target.node {
        TargetNode::Place(_) => count_target(acts, target),
        TargetNode::Tuple(targets) => count_all_deleted(acts, targets.as_slice()),
        TargetNode::List(targets) => count_all_deleted(acts, targets.as_slice()),
        TargetNode::Starred(target) => count_deleted(acts, target.get()),
    }
}

#[cycle(deleted)]
fn count_all_deleted(acts: &mut u32, targets: &[Target]) -> Result<(), Memory>
    ensures { OnOk result
        (acts.new ≡ acts.old + all_deleted_size (targets_of (map target_of targets.now))) }
{
    for target in targets {
        count_deleted(acts, target)?;
    }
    Ok(())
}

/// Two for each name of an import.
fn count_imports(acts: &mut u32, names: usize) -> Result<(), Memory>
    ensures { OnOk result (acts.new ≡ acts.old + (names + names)) }
{
    let count = u32::try_from(names).map_err(|_| Memory)?;
    add(acts, count)?;
    add(acts, count)
}

/// The values of decorators, and their calls.
fn count_decorators(acts: &mut u32, decorators: &[Decorator]) -> Result<(), Memory>
    ensures { OnOk result (acts.new ≡ acts.old + (decorators_size (decorators_of decorators.now)
        + decorator_calls (decorators_of decorators.now))) }
{
    for decorator in decorators {
        count_expression(acts, &decorator.value)?;
        add(acts, 1)?;
    }
    Ok(())
}

/// Items of a `with` that are entered and left.
#[tactic(auto, using(crate::proofs::Sums::items))]
fn count_items(acts: &mut u32, items: &[WithItem]) -> Result<(), Memory>
    ensures { OnOk result (acts.new ≡ acts.old + items_size (items_of items.now) 0) }
{
    for item in items {
        count_expression(acts, &item.context)?;
        count_optional_target(acts, &item.target)?;
        add(acts, 2)?;
    }
    Ok(())
}

fn count_optional_target(acts: &mut u32, target: &Option<Target>) -> Result<(), Memory>
    ensures { OnOk result
        (acts.new ≡ acts.old + opt_target_size (option_map target_of target.now)) }
{
    match target {
        None => Ok(()),
        Some(target) => count_target(acts, target),
    }
}

/// The name of a handler is bound by one.
fn binding_acts(name: &Option<Text>) -> u32
    ensures { result ≡ stored_by name.now }
{
    match name {
        None => 0,
        Some(_) => 1,
    }
}

#[cycle(counts)]
#[tactic(auto, using(pt_tree::proofs::StatementFolds::statements, crate::proofs::Sums::statements))]
fn count_statement(acts: &mut u32, s: &Stmt) -> Result<(), Memory>
    ensures { OnOk result (acts.new ≡ acts.old + stm_size (stm_of s.now)) }
{
    match &s.node {
        StmtNode::Expr(value) => {
            count_expression(acts, value)?;
            add(acts, 1)
        }
        StmtNode::Assign { targets, value } => {
            count_expression(acts, value)?;
            count_targets(acts, targets.as_slice())
        }
        StmtNode::Augmented { target, value, .. } => {
            count_changed(acts, target)?;
            count_expression(acts, value)?;
            add(acts, 2)
        }
        StmtNode::Annotated { target, value, .. } => count_annotated(acts, target, value),
        StmtNode::Assert { test, message } => {
            count_expression(acts, test)?;
            count_optional(acts, message)?;
            add(acts, 2)
        }
        StmtNode::Pass => add(acts, 1),
        StmtNode::Del(targets) => count_all_deleted(acts, targets.as_slice()),
        StmtNode::Return(value) => {
            count_optional(acts, value)?;
            add(acts, 1)
        }
        StmtNode::Raise { exception, cause } => {
            count_expression(acts, exception)?;
            count_optional(acts, cause)?;
            add(acts, 1)
        }
        StmtNode::RaiseAgain => add(acts, 1),
        StmtNode::Break => add(acts, 1),
        StmtNode::Continue => add(acts, 1),
        StmtNode::Import(names) => count_imports(acts, names.as_slice().len()),
        StmtNode::ImportFrom { names, .. } => {
            add(acts, 1)?;
            count_imports(acts, names.as_slice().len())
        }
        StmtNode::Global(_) => Ok(()),
        StmtNode::Nonlocal(_) => Ok(()),
        StmtNode::If {
            branches,
            otherwise,
        } => {
            count_branches(acts, branches.as_slice())?;
            count_statements(acts, otherwise.as_slice())
        }
        StmtNode::While {
            test,
            body,
            otherwise,
        } => {
            count_expression(acts, test)?;
            add(acts, 1)?;
            count_statements(acts, body.as_slice())?;
            count_statements(acts, otherwise.as_slice())
        }
        StmtNode::For {
            target,
            iterable,
            body,
            otherwise,
        } => {
            count_expression(acts, iterable)?;
            add(acts, 2)?;
            count_target(acts, target)?;
            count_statements(acts, body.as_slice())?;
            count_statements(acts, otherwise.as_slice())
        }
        StmtNode::Try {
            body,
            handlers,
            otherwise,
            finally,
        } => {
            add(acts, 1)?;
            count_statements(acts, body.as_slice())?;
            count_handlers(acts, handlers.as_slice())?;
            count_statements(acts, otherwise.as_slice())?;
            count_statements(acts, finally.as_slice())
        }
        StmtNode::With { items, body } => {
            count_items(acts, items.as_slice())?;
            count_statements(acts, body.as_slice())
        }
        StmtNode::Def {
            decorators,
            parameters,
            ..
        } => {
            count_decorators(acts, decorators.as_slice())?;
            count_parameters(acts, parameters)?;
            add(acts, 2)
        }
        StmtNode::Class {
            decorators,
            base,
            ..
        } => {
            count_decorators(acts, decorators.as_slice())?;
            count_optional(acts, base)?;
            add(acts, 2)
        }
    }
}

#[cycle(counts)]
fn count_statements(acts: &mut u32, statements: &[Stmt]) -> Result<(), Memory>
    ensures { OnOk result (acts.new ≡ acts.old + stms_size (stms_of statements.now)) }
{
    for s in statements {
        count_statement(acts, s)?;
    }
    Ok(())
}

#[cycle(counts)]
#[tactic(auto, using(pt_tree::proofs::StatementFolds::statements))]
fn count_branches(acts: &mut u32, branches: &[Branch]) -> Result<(), Memory>
    ensures { OnOk result
        (acts.new ≡ acts.old + branches_size (chained no_branches (map branch_of branches.now))) }
{
    for branch in branches {
        count_expression(acts, &branch.test)?;
        add(acts, 1)?;
        count_statements(acts, branch.body.as_slice())?;
    }
    Ok(())
}

#[cycle(counts)]
#[tactic(auto, using(pt_tree::proofs::StatementFolds::statements))]
fn count_handlers(acts: &mut u32, handlers: &[Handler]) -> Result<(), Memory>
    ensures { OnOk result
        (acts.new ≡ acts.old + handlers_size (chained no_handlers (map handler_of handlers.now))) }
{
    for handler in handlers {
        count_optional(acts, &handler.class)?;
        add(acts, 1)?;
        add(acts, binding_acts(&handler.name))?;
        count_statements(acts, handler.body.as_slice())?;
    }
    Ok(())
}
