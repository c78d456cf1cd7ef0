//! The acts of the blocks in statements, put behind those of the blocks that start before them.

ghost use Rattle.std.specs.Prelude.{◌≡◌, ◌++◌, OnOk, map, option_map};
ghost use Rattle.pt_tree.specs.Blocks.{acts_of, blocks_branches, blocks_decorators, blocks_handlers, blocks_items, blocks_opt, blocks_opt_target, blocks_stm, blocks_stms};
ghost use Rattle.pt_tree.specs.Fold.{chained, opt_exp, target_of};
ghost use Rattle.pt_tree.specs.StatementFold.{branch_of, decorators_of, handler_of, items_of, stm_of, stms_of};
ghost use Rattle.pt_tree.specs.Syntax.{no_branches, no_handlers};

use crate::block_acts::BlockActs;
use crate::blocks::{
    collect_expression, collect_parameters, collect_place, collect_target, collect_targets,
};
use pt_base::{Memory, Seq};
use pt_tree::{Branch, Decorator, Expr, Handler, Stmt, StmtNode, Target, WithItem};
use std::alloc::Global;

#[tactic(auto, using(crate::proofs::Walk::blocks))]
fn collect_optional(
    alloc: Global,
    table: &mut Seq<BlockActs>,
    e: &Option<Expr>,
) -> Result<(), Memory>
    ensures { OnOk result (table.new ≡ table.old ++ map acts_of (blocks_opt (opt_exp e.now))) }
{
    match e {
        None => Ok(()),
        Some(e) => collect_expression(alloc, table, e),
    }
}

#[tactic(auto, using(crate::proofs::Walk::blocks))]
fn collect_optional_target(
    alloc: Global,
    table: &mut Seq<BlockActs>,
    target: &Option<Target>,
) -> Result<(), Memory>
    ensures { OnOk result (table.new ≡ table.old ++ map acts_of (blocks_opt_target (option_map target_of target.now))) }
{
    match target {
        None => Ok(()),
        Some(target) => collect_target(alloc, table, target),
    }
}

#[tactic(auto, using(crate::proofs::Walk::blocks))]
fn collect_decorators(
    alloc: Global,
    table: &mut Seq<BlockActs>,
    decorators: &[Decorator],
) -> Result<(), Memory>
    ensures { OnOk result (table.new ≡ table.old ++ map acts_of (blocks_decorators (decorators_of decorators.now))) }
{
    for decorator in decorators {
        collect_expression(alloc, table, &decorator.value)?;
    }
    Ok(())
}

#[tactic(auto, using(crate::proofs::Walk::blocks))]
fn collect_items(
    alloc: Global,
    table: &mut Seq<BlockActs>,
    items: &[WithItem],
) -> Result<(), Memory>
    ensures { OnOk result (table.new ≡ table.old ++ map acts_of (blocks_items (items_of items.now))) }
{
    for item in items {
        collect_expression(alloc, table, &item.context)?;
        collect_optional_target(alloc, table, &item.target)?;
    }
    Ok(())
}

#[cycle(blocks)]
#[tactic(auto, using(pt_tree::proofs::StatementFolds::statements, crate::proofs::Walk::blocks))]
fn collect_statement(alloc: Global, table: &mut Seq<BlockActs>, s: &Stmt) -> Result<(), Memory>
    ensures { OnOk result (table.new ≡ table.old ++ map acts_of (blocks_stm (stm_of s.now))) }
{
    match &s.node {
        StmtNode::Expr(value) => collect_expression(alloc, table, value),
        StmtNode::Assign { targets, value } => {
            collect_targets(alloc, table, targets.as_slice())?;
            collect_expression(alloc, table, value)
        }
        StmtNode::Augmented { target, value, .. } => {
            collect_place(alloc, table, target.line, &target.node)?;
            collect_expression(alloc, table, value)
        }
        StmtNode::Annotated { target, value, .. } => {
            collect_place(alloc, table, target.line, &target.node)?;
            collect_optional(alloc, table, value)
        }
        StmtNode::Assert { test, message } => {
            collect_expression(alloc, table, test)?;
            collect_optional(alloc, table, message)
        }
        StmtNode::Pass => Ok(()),
        StmtNode::Del(targets) => collect_targets(alloc, table, targets.as_slice()),
        StmtNode::Return(value) => collect_optional(alloc, table, value),
        StmtNode::Raise { exception, cause } => {
            collect_expression(alloc, table, exception)?;
            collect_optional(alloc, table, cause)
        }
        StmtNode::RaiseAgain => Ok(()),
        StmtNode::Break => Ok(()),
        StmtNode::Continue => Ok(()),
        StmtNode::Import(_) => Ok(()),
        StmtNode::ImportFrom { .. } => Ok(()),
        StmtNode::Global(_) => Ok(()),
        StmtNode::Nonlocal(_) => Ok(()),
        StmtNode::If {
            branches,
            otherwise,
        } => {
            collect_branches(alloc, table, branches.as_slice())?;
            collect_statements(alloc, table, otherwise.as_slice())
        }
        StmtNode::While {
            test,
            body,
            otherwise,
        } => {
            collect_expression(alloc, table, test)?;
            collect_statements(alloc, table, body.as_slice())?;
            collect_statements(alloc, table, otherwise.as_slice())
        }
        StmtNode::For {
            target,
            iterable,
            body,
            otherwise,
        } => {
            collect_target(alloc, table, target)?;
            collect_expression(alloc, table, iterable)?;
            collect_statements(alloc, table, body.as_slice())?;
            collect_statements(alloc, table, otherwise.as_slice())
        }
        StmtNode::Try {
            body,
            handlers,
            otherwise,
            finally,
        } => {
            collect_statements(alloc, table, body.as_slice())?;
            collect_handlers(alloc, table, handlers.as_slice())?;
            collect_statements(alloc, table, otherwise.as_slice())?;
            collect_statements(alloc, table, finally.as_slice())
        }
        StmtNode::With { items, body } => {
            collect_items(alloc, table, items.as_slice())?;
            collect_statements(alloc, table, body.as_slice())
        }
        StmtNode::Def {
            decorators,
            parameters,
            body,
            ..
        } => {
            collect_decorators(alloc, table, decorators.as_slice())?;
            let acts = BlockActs::of_function(alloc, body.as_slice())?;
            table.push(acts)?;
            collect_parameters(alloc, table, parameters)?;
            collect_statements(alloc, table, body.as_slice())
        }
        StmtNode::Class {
            decorators,
            base,
            body,
            ..
        } => {
            collect_decorators(alloc, table, decorators.as_slice())?;
            let acts = BlockActs::of_statements(alloc, body.as_slice())?;
            table.push(acts)?;
            collect_optional(alloc, table, base)?;
            collect_statements(alloc, table, body.as_slice())
        }
    }
}

#[cycle(blocks)]
#[tactic(auto, using(pt_tree::proofs::StatementFolds::statements, crate::proofs::Walk::blocks))]
pub fn collect_statements(
    alloc: Global,
    table: &mut Seq<BlockActs>,
    statements: &[Stmt],
) -> Result<(), Memory>
    ensures { OnOk result (table.new ≡ table.old ++ map acts_of (blocks_stms (stms_of statements.now))) }
{
    for s in statements {
        collect_statement(alloc, table, s)?;
    }
    Ok(())
}

#[cycle(blocks)]
#[tactic(auto, using(pt_tree::proofs::StatementFolds::statements, crate::proofs::Walk::blocks))]
fn collect_branches(
    alloc: Global,
    table: &mut Seq<BlockActs>,
    branches: &[Branch],
) -> Result<(), Memory>
    ensures { OnOk result (table.new ≡ table.old ++ map acts_of (blocks_branches (chained no_branches (map branch_of branches.now)))) }
{
    for branch in branches {
        collect_expression(alloc, table, &branch.test)?;
        collect_statements(alloc, table, branch.body.as_slice())?;
    }
    Ok(())
}

#[cycle(blocks)]
#[tactic(auto, using(pt_tree::proofs::StatementFolds::statements, crate::proofs::Walk::blocks))]
fn collect_handlers(
    alloc: Global,
    table: &mut Seq<BlockActs>,
    handlers: &[Handler],
) -> Result<(), Memory>
    ensures { OnOk result (table.new ≡ table.old ++ map acts_of (blocks_handlers (chained no_handlers (map handler_of handlers.now)))) }
{
    for handler in handlers {
        collect_optional(alloc, table, &handler.class)?;
        collect_statements(alloc, table, handler.body.as_slice())?;
    }
    Ok(())
}
