//! Visits the blocks in statements.

ghost use Rattle.std.specs.Prelude.{◌≡◌, OnOk, map, option_map};
ghost use Rattle.pt_tree.specs.Blocks.{blocks_branches, blocks_decorators, blocks_handlers, blocks_items, blocks_opt, blocks_opt_target, blocks_stm, blocks_stms};
ghost use Rattle.pt_blocks.specs.Visits.{behind_blocks};
ghost use Rattle.pt_tree.specs.Fold.{chained, opt_exp, target_of};
ghost use Rattle.pt_tree.specs.StatementFold.{branch_of, decorators_of, handler_of, items_of, stm_of, stms_of};
ghost use Rattle.pt_tree.specs.Syntax.{no_branches, no_handlers};

use crate::expressions::{
    visit_expression, visit_parameters, visit_place, visit_target, visit_targets,
};
use crate::visitor::{BlockVisitor, first_line_of};
use pt_base::Memory;
use pt_tree::{Branch, Decorator, Expr, Handler, Stmt, StmtNode, Target, WithItem};

#[tactic(auto, using(crate::proofs::Walk::blocks))]
fn visit_optional<V: BlockVisitor>(visitor: &mut V, e: &Option<Expr>) -> Result<(), Memory>
    ensures { OnOk result
        (visitor.new ≡ behind_blocks V.behind (blocks_opt (opt_exp e.now)) visitor.old) }
{
    match e {
        None => Ok(()),
        Some(e) => visit_expression(visitor, e),
    }
}

#[tactic(auto, using(crate::proofs::Walk::blocks))]
fn visit_optional_target<V: BlockVisitor>(
    visitor: &mut V,
    target: &Option<Target>,
) -> Result<(), Memory>
    ensures { OnOk result
        (visitor.new
        ≡ behind_blocks V.behind (blocks_opt_target (option_map target_of target.now))
        visitor.old) }
{
    match target {
        None => Ok(()),
        Some(target) => visit_target(visitor, target),
    }
}

#[tactic(auto, using(crate::proofs::Walk::blocks))]
fn visit_decorators<V: BlockVisitor>(
    visitor: &mut V,
    decorators: &[Decorator],
) -> Result<(), Memory>
    ensures { OnOk result
        (visitor.new
        ≡ behind_blocks V.behind (blocks_decorators (decorators_of decorators.now)) visitor.old) }
{
    for decorator in decorators {
        visit_expression(visitor, &decorator.value)?;
    }
    Ok(())
}

#[tactic(auto, using(crate::proofs::Walk::blocks))]
fn visit_items<V: BlockVisitor>(visitor: &mut V, items: &[WithItem]) -> Result<(), Memory>
    ensures { OnOk result
        (visitor.new ≡ behind_blocks V.behind (blocks_items (items_of items.now)) visitor.old) }
{
    for item in items {
        visit_expression(visitor, &item.context)?;
        visit_optional_target(visitor, &item.target)?;
    }
    Ok(())
}

#[cycle(blocks)]
#[tactic(auto, using(pt_tree::proofs::StatementFolds::statements, crate::proofs::Walk::blocks))]
fn visit_statement<V: BlockVisitor>(visitor: &mut V, s: &Stmt) -> Result<(), Memory>
    ensures { OnOk result
        (visitor.new ≡ behind_blocks V.behind (blocks_stm (stm_of s.now)) visitor.old) }
{
    match &s.node {
        StmtNode::Expr(value) => visit_expression(visitor, value),
        StmtNode::Assign { targets, value } => {
            visit_targets(visitor, targets.as_slice())?;
            visit_expression(visitor, value)
        }
        StmtNode::Augmented { target, value, .. } => {
            visit_place(visitor, target.line, &target.node)?;
            visit_expression(visitor, value)
        }
        StmtNode::Annotated { target, value, .. } => {
            visit_place(visitor, target.line, &target.node)?;
            visit_optional(visitor, value)
        }
        StmtNode::Assert { test, message } => {
            visit_expression(visitor, test)?;
            visit_optional(visitor, message)
        }
        StmtNode::Pass => Ok(()),
        StmtNode::Del(targets) => visit_targets(visitor, targets.as_slice()),
        StmtNode::Return(value) => visit_optional(visitor, value),
        StmtNode::Raise { exception, cause } => {
            visit_expression(visitor, exception)?;
            visit_optional(visitor, cause)
        }
        StmtNode::RaiseAgain => Ok(()),
        StmtNode::Break => Ok(()),
        StmtNode::Continue => Ok(()),
        StmtNode::Import(_) => Ok(()),
        StmtNode::ImportFrom { .. } => Ok(()),
        StmtNode::Global(_) => Ok(()),
        StmtNode::Nonlocal(_) => Ok(()),
        StmtNode::If {
            branches,
            otherwise,
        } => {
            visit_branches(visitor, branches.as_slice())?;
            visit_statements(visitor, otherwise.as_slice())
        }
        StmtNode::While {
            test,
            body,
            otherwise,
        } => {
            visit_expression(visitor, test)?;
            visit_statements(visitor, body.as_slice())?;
            visit_statements(visitor, otherwise.as_slice())
        }
        StmtNode::For {
            target,
            iterable,
            body,
            otherwise,
        } => {
            visit_target(visitor, target)?;
            visit_expression(visitor, iterable)?;
            visit_statements(visitor, body.as_slice())?;
            visit_statements(visitor, otherwise.as_slice())
        }
        StmtNode::Try {
            body,
            handlers,
            otherwise,
            finally,
        } => {
            visit_statements(visitor, body.as_slice())?;
            visit_handlers(visitor, handlers.as_slice())?;
            visit_statements(visitor, otherwise.as_slice())?;
            visit_statements(visitor, finally.as_slice())
        }
        StmtNode::With { items, body } => {
            visit_items(visitor, items.as_slice())?;
            visit_statements(visitor, body.as_slice())
        }
        StmtNode::Def {
            decorators,
            line,
            name,
            parameters,
            body,
            ..
        } => {
            let decorators = decorators.as_slice();
            visit_decorators(visitor, decorators)?;
            let first_line = first_line_of(decorators, *line);
            visitor.function(name, first_line, parameters, body.as_slice())?;
            visit_parameters(visitor, parameters)?;
            visit_statements(visitor, body.as_slice())
        }
        StmtNode::Class {
            decorators,
            line,
            name,
            base,
            body,
            ..
        } => {
            let decorators = decorators.as_slice();
            visit_decorators(visitor, decorators)?;
            let first_line = first_line_of(decorators, *line);
            visitor.class(name, first_line, body.as_slice())?;
            visit_optional(visitor, base)?;
            visit_statements(visitor, body.as_slice())
        }
    }
}

#[cycle(blocks)]
#[tactic(auto, using(pt_tree::proofs::StatementFolds::statements, crate::proofs::Walk::blocks))]
pub fn visit_statements<V: BlockVisitor>(visitor: &mut V, statements: &[Stmt]) -> Result<(), Memory>
    ensures { OnOk result
        (visitor.new ≡ behind_blocks V.behind (blocks_stms (stms_of statements.now)) visitor.old) }
{
    for s in statements {
        visit_statement(visitor, s)?;
    }
    Ok(())
}

#[cycle(blocks)]
#[tactic(auto, using(pt_tree::proofs::StatementFolds::statements, crate::proofs::Walk::blocks))]
fn visit_branches<V: BlockVisitor>(visitor: &mut V, branches: &[Branch]) -> Result<(), Memory>
    ensures { OnOk result
        (visitor.new
        ≡ behind_blocks V.behind
        (blocks_branches (chained no_branches (map branch_of branches.now))) visitor.old) }
{
    for branch in branches {
        visit_expression(visitor, &branch.test)?;
        visit_statements(visitor, branch.body.as_slice())?;
    }
    Ok(())
}

#[cycle(blocks)]
#[tactic(auto, using(pt_tree::proofs::StatementFolds::statements, crate::proofs::Walk::blocks))]
fn visit_handlers<V: BlockVisitor>(visitor: &mut V, handlers: &[Handler]) -> Result<(), Memory>
    ensures { OnOk result
        (visitor.new
        ≡ behind_blocks V.behind
        (blocks_handlers (chained no_handlers (map handler_of handlers.now))) visitor.old) }
{
    for handler in handlers {
        visit_optional(visitor, &handler.class)?;
        visit_statements(visitor, handler.body.as_slice())?;
    }
    Ok(())
}
