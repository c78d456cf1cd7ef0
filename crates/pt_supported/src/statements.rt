//! The first unsupported node of a statement and of a script.

ghost use Rattle.std.specs.Prelude.{◌≡◌, Some, None, map, option_map};
ghost use Rattle.pt_tree.specs.Fold.{chained, opt_exp, target_of};
ghost use Rattle.pt_tree.specs.StatementFold.{branch_of, decorators_of, handler_of, items_of};
ghost use Rattle.pt_tree.specs.StatementFold.{script_of, stm_of, stms_of};
ghost use Rattle.pt_tree.specs.Syntax.{no_branches, no_handlers};
ghost use Rattle.pt_supported.specs.Built.{unbuilt_branches, unbuilt_decorators, unbuilt_handlers};
ghost use Rattle.pt_supported.specs.Built.{unbuilt_items, unbuilt_of, unbuilt_opt, unbuilt_stm};
ghost use Rattle.pt_supported.specs.Built.{unbuilt_stms, unbuilt_taken};

use crate::expressions::{
    unbuilt_expression, unbuilt_parameters, unbuilt_place, unbuilt_target, unbuilt_targets,
};
use crate::names::{are_available, are_bound_available, is_available, is_available_if, unless};
use pt_base::Line;
use pt_tree::{Branch, Decorator, Expr, Handler, Script, Stmt, StmtNode, Target, WithItem};

fn unbuilt_optional(e: &Option<Expr>) -> Option<Line>
    ensures { option_map (λ l. l.0) result ≡ unbuilt_opt (opt_exp e.now) }
{
    match e {
        Some(e) => unbuilt_expression(e),
        None => None,
    }
}

fn unbuilt_decorators(decorators: &[Decorator]) -> Option<Line>
    ensures { option_map (λ l. l.0) result
        ≡ unbuilt_decorators (decorators_of decorators.now) }
{
    for decorator in decorators {
        let found = unbuilt_expression(&decorator.value);
        if found.is_some() {
            return found;
        }
    }
    None
}

fn unbuilt_taken(target: &Option<Target>) -> Option<Line>
    ensures { option_map (λ l. l.0) result ≡ unbuilt_taken (option_map target_of target.now) }
{
    match target {
        Some(target) => unbuilt_target(target),
        None => None,
    }
}

/// The items of a `with`, each with what takes the value that it gives.
fn unbuilt_items(items: &[WithItem]) -> Option<Line>
    ensures { option_map (λ l. l.0) result ≡ unbuilt_items (items_of items.now) }
{
    for item in items {
        let context = unbuilt_expression(&item.context);
        let found = context.or(unbuilt_taken(&item.target));
        if found.is_some() {
            return found;
        }
    }
    None
}

#[cycle(statements)]
#[tactic(auto, using(pt_tree::proofs::StatementFolds::statements))]
fn unbuilt_statement(s: &Stmt) -> Option<Line>
    ensures { option_map (λ l. l.0) result ≡ unbuilt_stm (stm_of s.now) }
{
    match &s.node {
        StmtNode::Expr(value) => unbuilt_expression(value),
        StmtNode::Assign { targets, value } => {
            unbuilt_targets(targets.as_slice()).or(unbuilt_expression(value))
        }
        StmtNode::Augmented { target, value, .. } => {
            unbuilt_place(target.line, &target.node).or(unbuilt_expression(value))
        }
        StmtNode::Annotated { target, value, .. } => {
            unbuilt_place(target.line, &target.node).or(unbuilt_optional(value))
        }
        StmtNode::Pass | StmtNode::Break | StmtNode::Continue => None,
        StmtNode::Del(targets) => unbuilt_targets(targets.as_slice()),
        StmtNode::Return(value) => unbuilt_optional(value),
        StmtNode::Global(names) | StmtNode::Nonlocal(names) => {
            unless(are_available(names.as_slice()), s.line)
        }
        StmtNode::If {
            branches,
            otherwise,
        } => {
            let otherwise = unbuilt_statements(otherwise.as_slice());
            unbuilt_branches(branches.as_slice()).or(otherwise)
        }
        StmtNode::While {
            test,
            body,
            otherwise,
        } => {
            let otherwise = unbuilt_statements(otherwise.as_slice());
            let behind = unbuilt_statements(body.as_slice()).or(otherwise);
            unbuilt_expression(test).or(behind)
        }
        StmtNode::For {
            target,
            iterable,
            body,
            otherwise,
        } => {
            let otherwise = unbuilt_statements(otherwise.as_slice());
            let behind = unbuilt_statements(body.as_slice()).or(otherwise);
            unbuilt_target(target).or(unbuilt_expression(iterable).or(behind))
        }
        StmtNode::Def {
            decorators,
            name,
            parameters,
            body,
            ..
        } => {
            let parameters = unbuilt_parameters(parameters);
            let inner = parameters.or(unbuilt_statements(body.as_slice()));
            let parts = unbuilt_decorators(decorators.as_slice()).or(inner);
            unless(is_available(name.as_str()), s.line).or(parts)
        }
        StmtNode::Assert { test, message } => {
            unbuilt_expression(test).or(unbuilt_optional(message))
        }
        StmtNode::Raise { exception, cause } => {
            unbuilt_expression(exception).or(unbuilt_optional(cause))
        }
        StmtNode::RaiseAgain => None,
        StmtNode::Try {
            body,
            handlers,
            otherwise,
            finally,
        } => {
            let behind = unbuilt_statements(otherwise.as_slice());
            let parts = behind.or(unbuilt_statements(finally.as_slice()));
            let parts = unbuilt_handlers(handlers.as_slice()).or(parts);
            unbuilt_statements(body.as_slice()).or(parts)
        }
        StmtNode::Import(names) => unless(are_bound_available(names.as_slice()), s.line),
        StmtNode::ImportFrom { names, .. } => {
            unless(are_bound_available(names.as_slice()), s.line)
        }
        StmtNode::Class {
            decorators,
            name,
            base,
            body,
            ..
        } => {
            let behind = unbuilt_optional(base).or(unbuilt_statements(body.as_slice()));
            let parts = unbuilt_decorators(decorators.as_slice()).or(behind);
            let name = unless(is_available(name.as_str()), s.line);
            name.or(parts)
        }
        StmtNode::With { items, body } => {
            let behind = unbuilt_statements(body.as_slice());
            unbuilt_items(items.as_slice()).or(behind)
        }
    }
}

#[cycle(statements)]
#[tactic(auto, using(pt_tree::proofs::StatementFolds::statements))]
fn unbuilt_statements(statements: &[Stmt]) -> Option<Line>
    ensures { option_map (λ l. l.0) result ≡ unbuilt_stms (stms_of statements.now) }
{
    for s in statements {
        let found = unbuilt_statement(s);
        if found.is_some() {
            return found;
        }
    }
    None
}

#[cycle(statements)]
#[tactic(auto, using(pt_tree::proofs::StatementFolds::statements))]
fn unbuilt_branches(branches: &[Branch]) -> Option<Line>
    ensures { option_map (λ l. l.0) result
        ≡ unbuilt_branches (chained no_branches (map branch_of branches.now)) }
{
    for branch in branches {
        let test = unbuilt_expression(&branch.test);
        let found = test.or(unbuilt_statements(branch.body.as_slice()));
        if found.is_some() {
            return found;
        }
    }
    None
}

#[cycle(statements)]
#[tactic(auto, using(pt_tree::proofs::StatementFolds::statements))]
fn unbuilt_handlers(handlers: &[Handler]) -> Option<Line>
    ensures { option_map (λ l. l.0) result
        ≡ unbuilt_handlers (chained no_handlers (map handler_of handlers.now)) }
{
    for handler in handlers {
        let name = unless(is_available_if(&handler.name), handler.line);
        let body = unbuilt_statements(handler.body.as_slice());
        let found = name.or(unbuilt_optional(&handler.class).or(body));
        if found.is_some() {
            return found;
        }
    }
    None
}

/// The line of the first node of a script that isn't supported, in the order of the source and a
/// node before its parts; `None` where all of the script is supported. It takes time in proportion
/// to the tree, and no memory but a stack that is as deep as the tree.
pub fn first_unbuilt(script: &Script) -> Option<Line>
    ensures { option_map (λ l. l.0) result ≡ unbuilt_of (script_of script.now) }
{
    unbuilt_statements(script.body.as_slice())
}
