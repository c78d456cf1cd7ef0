//! The first fault of statements (Language Reference 7, 8). Each check stops at the first fault of
//! its part, in source order.

ghost use Rattle.std.specs.Prelude.{◌≡◌, false, map, option_map};
ghost use Rattle.pt_refine_expr.specs.Faults.{faults_opt, faults_place};
ghost use Rattle.pt_refine_expr.specs.First.{first_of, stop_of};
ghost use Rattle.pt_refine_expr.specs.StatementFaults.{faults_as, faults_assigned, faults_base, faults_branches, faults_decorators, faults_group, faults_handlers, faults_items, faults_origin, faults_stm, faults_stms, is_generator as is_generator_of, args_line, is_base as is_base_of};
ghost use Rattle.pt_tree.specs.Fold.{chained};
ghost use Rattle.pt_wide.specs.Fold.{all_of, argument_of, exp_of, opt_exp};
ghost use Rattle.pt_wide.specs.StatementFold.{branch_of, decorators_of, handler_of, items_of, stm_of, stms_of};
ghost use Rattle.pt_wide.specs.Syntax.{no_args, no_branches, no_handlers};

use crate::expression_faults::{
    check_arguments, check_expression, check_parameters, check_target, check_targets,
};
use crate::fault::Fault;
use crate::stars::Stars;
use pt_base::{Line, Seq};
use pt_tree::Alias;
use pt_wide::{
    Comprehension, WideArgument, WideBranch, WideDecorator, WideExpr, WideHandler, WideItem,
    WideNode, WideStmt, WideStmtNode,
};

fn check_value(value: &Option<WideExpr>) -> Result<(), Fault>
    ensures { stop_of result ≡ first_of (faults_opt (opt_exp value.now)) }
{
    match value {
        None => Ok(()),
        Some(value) => check_expression(value),
    }
}

/// What stands in the place of a name, attribute or item alone.
fn check_place(e: &WideExpr) -> Result<(), Fault>
    ensures { stop_of result ≡ first_of (faults_place (exp_of e.now)) }
{
    match &e.node {
        WideNode::Name(_) => Ok(()),
        WideNode::Attribute { object, .. } => check_expression(object.get()),
        WideNode::Item { object, index } => {
            check_expression(object.get())?;
            check_expression(index.get())
        }
        _ => Err(Fault::BadTarget { line: e.line }),
    }
}

/// The targets of an assignment, each behind its own `=`.
fn check_assigned(targets: &[WideExpr]) -> Result<(), Fault>
    ensures { stop_of result ≡ first_of (faults_assigned (all_of (map exp_of targets.now))) }
{
    for target in targets {
        check_target(Stars::Inside, target)?;
    }
    Ok(())
}

/// What stands behind an `as`.
fn check_as(target: &Option<WideExpr>) -> Result<(), Fault>
    ensures { stop_of result ≡ first_of (faults_as (opt_exp target.now)) }
{
    match target {
        None => Ok(()),
        Some(target) => check_target(Stars::Never, target),
    }
}

/// What an import is from, and whether it is of all names.
fn check_origin(line: Line, dots: u32, names: &Option<Seq<Alias>>) -> Result<(), Fault>
    ensures { stop_of result ≡ first_of (faults_origin line.0 dots names.now) }
{
    if dots > 0 {
        return Err(Fault::Excluded { line });
    }
    match names {
        None => Err(Fault::Excluded { line }),
        Some(_) => Ok(()),
    }
}

/// Whether an expression is a generator without brackets of its own (Language Reference 6.2.8).
pub fn is_generator(e: &WideExpr) -> bool
    ensures { result ≡ is_generator_of (exp_of e.now) }
{
    match &e.node {
        WideNode::Comprehension { form, .. } => match form {
            Comprehension::List => false,
            Comprehension::Set => false,
            Comprehension::Generator => true,
        },
        _ => false,
    }
}

/// The line on which an argument starts.
fn argument_line(argument: &WideArgument) -> Line
    ensures { (r : _) → result.0 ≡ args_line (argument_of argument.now r) }
{
    match argument {
        WideArgument::Positional(value) => value.line,
        WideArgument::Named { line, .. } => *line,
        WideArgument::Spread { line, .. } => *line,
        WideArgument::SpreadNamed { line, .. } => *line,
    }
}

/// Whether it is the one base that a class may have.
fn is_base(argument: &WideArgument) -> bool
    ensures { result ≡ is_base_of (argument_of argument.now no_args) false }
{
    match argument {
        WideArgument::Positional(value) => !is_generator(value),
        WideArgument::Named { .. } => false,
        WideArgument::Spread { .. } => false,
        WideArgument::SpreadNamed { .. } => false,
    }
}

/// The arguments of a class, which has one base at most, and no comma behind it.
fn check_base(arguments: &[WideArgument], trailing_comma: bool) -> Result<(), Fault>
    ensures { stop_of result ≡ first_of (faults_base (chained no_args (map argument_of arguments.now)) trailing_comma) }
{
    match arguments.first() {
        None => Ok(()),
        Some(first) => {
            let fault = Fault::Excluded {
                line: argument_line(first),
            };
            if trailing_comma {
                return Err(fault);
            }
            if arguments.len() > 1 {
                return Err(fault);
            }
            if !is_base(first) {
                return Err(fault);
            }
            Ok(())
        }
    }
}

fn check_decorators(decorators: &[WideDecorator]) -> Result<(), Fault>
    ensures { stop_of result ≡ first_of (faults_decorators (decorators_of decorators.now)) }
{
    for decorator in decorators {
        check_expression(&decorator.value)?;
    }
    Ok(())
}

fn check_items(items: &[WideItem]) -> Result<(), Fault>
    ensures { stop_of result ≡ first_of (faults_items (items_of items.now)) }
{
    for item in items {
        check_expression(&item.context)?;
        check_as(&item.target)?;
    }
    Ok(())
}

/// The `*` of an `except*`.
fn check_group(line: Line, star: bool) -> Result<(), Fault>
    ensures { stop_of result ≡ first_of (faults_group line.0 star) }
{
    if star {
        Err(Fault::Excluded { line })
    } else {
        Ok(())
    }
}

#[cycle(statements)]
#[tactic(auto, using(crate::proofs::Stops::stops))]
fn check_statement(s: &WideStmt) -> Result<(), Fault>
    ensures { stop_of result ≡ first_of (faults_stm (stm_of s.now)) }
{
    match &s.node {
        WideStmtNode::Assign { targets, value } => {
            check_assigned(targets.as_slice())?;
            check_expression(value)
        }
        WideStmtNode::Augmented { target, value, .. } => {
            check_place(target)?;
            check_expression(value)
        }
        WideStmtNode::Annotated {
            target,
            annotation,
            value,
        } => {
            check_place(target)?;
            check_expression(annotation)?;
            check_value(value)
        }
        WideStmtNode::Assert { test, message } => {
            check_expression(test)?;
            check_value(message)
        }
        WideStmtNode::Pass => Ok(()),
        WideStmtNode::Del(targets) => check_targets(Stars::Never, targets.as_slice()),
        WideStmtNode::Return(value) => check_value(value),
        WideStmtNode::Raise { exception, cause } => {
            check_expression(exception)?;
            check_value(cause)
        }
        WideStmtNode::RaiseAgain => Ok(()),
        WideStmtNode::Break => Ok(()),
        WideStmtNode::Continue => Ok(()),
        WideStmtNode::Import(_) => Ok(()),
        WideStmtNode::ImportFrom { dots, names, .. } => check_origin(s.line, *dots, names),
        WideStmtNode::Global(_) => Ok(()),
        WideStmtNode::Nonlocal(_) => Ok(()),
        WideStmtNode::If {
            branches,
            otherwise,
        } => {
            check_branches(branches.as_slice())?;
            check_statements(otherwise.as_slice())
        }
        WideStmtNode::While {
            test,
            body,
            otherwise,
        } => {
            check_expression(test)?;
            check_statements(body.as_slice())?;
            check_statements(otherwise.as_slice())
        }
        WideStmtNode::For {
            target,
            iterable,
            body,
            otherwise,
        } => {
            check_target(Stars::Inside, target)?;
            check_expression(iterable)?;
            check_statements(body.as_slice())?;
            check_statements(otherwise.as_slice())
        }
        WideStmtNode::Try {
            body,
            handlers,
            otherwise,
            finally,
        } => {
            check_statements(body.as_slice())?;
            check_handlers(handlers.as_slice())?;
            check_statements(otherwise.as_slice())?;
            check_statements(finally.as_slice())
        }
        WideStmtNode::With { items, body } => {
            check_items(items.as_slice())?;
            check_statements(body.as_slice())
        }
        WideStmtNode::Def {
            decorators,
            parameters,
            returns,
            body,
            ..
        } => {
            check_decorators(decorators.as_slice())?;
            check_parameters(parameters)?;
            check_value(returns)?;
            check_statements(body.as_slice())
        }
        WideStmtNode::Class {
            decorators,
            arguments,
            trailing_comma,
            body,
            ..
        } => {
            check_decorators(decorators.as_slice())?;
            check_base(arguments.as_slice(), *trailing_comma)?;
            check_arguments(arguments.as_slice())?;
            check_statements(body.as_slice())
        }
    }
}

#[cycle(statements)]
#[tactic(auto, using(crate::proofs::Stops::stops))]
pub fn check_statements(statements: &[WideStmt]) -> Result<(), Fault>
    ensures { stop_of result ≡ first_of (faults_stms (stms_of statements.now)) }
{
    for statement in statements {
        check_statement(statement)?;
    }
    Ok(())
}

#[cycle(statements)]
#[tactic(auto, using(crate::proofs::Stops::stops))]
fn check_branches(branches: &[WideBranch]) -> Result<(), Fault>
    ensures { stop_of result ≡ first_of (faults_branches (chained no_branches (map branch_of branches.now))) }
{
    for branch in branches {
        check_expression(&branch.test)?;
        check_statements(branch.body.as_slice())?;
    }
    Ok(())
}

#[cycle(statements)]
#[tactic(auto, using(crate::proofs::Stops::stops))]
fn check_handlers(handlers: &[WideHandler]) -> Result<(), Fault>
    ensures { stop_of result ≡ first_of (faults_handlers (chained no_handlers (map handler_of handlers.now))) }
{
    for handler in handlers {
        check_group(handler.line, handler.star)?;
        check_value(&handler.class)?;
        check_statements(handler.body.as_slice())?;
    }
    Ok(())
}
