//! Nodes of the tree of statements.

ghost use Rattle.std.specs.Prelude.{◌≡◌, map};
ghost use Rattle.pt_wide.specs.Fold.{exp_of, opt_exp, all_of};
ghost use Rattle.pt_wide.specs.StatementFold.{stm_of, stms_of};
ghost use Rattle.pt_grammar.specs.Nodes.{params_of};
ghost use Rattle.pt_grammar.specs.Views.{args_in};
ghost use Rattle.pt_grammar.specs.ReadViews.{gathered_read};
ghost use Rattle.pt_parser.specs.Headings.{a_decorator, decorators_from};
ghost use Rattle.pt_parser.specs.Grammar.{branches_of, handler_at, handlers_from};
ghost use Rattle.pt_parser.specs.With.{items_from};
ghost use Rattle.pt_parser.specs.Views.{item_in, branch_in, branch_parts, decorator_in, catch_in, handler_in};
ghost use Rattle.pt_wide.specs.Syntax as S;

use crate::heads::{Bases, Catch, Signature};
use pt_base::{BinOp, Boxed, Line, Seq, Text};
use pt_tree::Alias;
use pt_wide::{WideBranch, WideDecorator, WideExpr, WideHandler, WideItem, WideStmt, WideStmtNode};

/// What is in the box, if it is there.
pub(crate) fn unboxed(value: Option<Boxed<WideExpr>>) -> Option<WideExpr>
    ensures { opt_exp result ≡ opt_exp value }
{
    match value {
        Some(value) => Some(value.into_inner()),
        None => None,
    }
}

#[tactic(auto, using(pt_wide::proofs::StatementFolds::statements))]
pub(crate) fn pass(line: Line) -> WideStmt
    ensures { stm_of result ≡ S.pass line.0 }
{
    let node = WideStmtNode::Pass;
    WideStmt { line, node }
}

#[tactic(auto, using(pt_wide::proofs::StatementFolds::statements))]
pub(crate) fn break_loop(line: Line) -> WideStmt
    ensures { stm_of result ≡ S.break line.0 }
{
    let node = WideStmtNode::Break;
    WideStmt { line, node }
}

#[tactic(auto, using(pt_wide::proofs::StatementFolds::statements))]
pub(crate) fn continue_loop(line: Line) -> WideStmt
    ensures { stm_of result ≡ S.continue line.0 }
{
    let node = WideStmtNode::Continue;
    WideStmt { line, node }
}

#[tactic(auto, using(pt_wide::proofs::StatementFolds::statements))]
pub(crate) fn returned(line: Line, value: Option<Boxed<WideExpr>>) -> WideStmt
    ensures { stm_of result ≡ S.return line.0 (opt_exp value) }
{
    let node = WideStmtNode::Return(unboxed(value));
    WideStmt { line, node }
}

#[tactic(auto, using(pt_wide::proofs::StatementFolds::statements))]
pub(crate) fn raised_again(line: Line) -> WideStmt
    ensures { stm_of result ≡ S.raise_again line.0 }
{
    let node = WideStmtNode::RaiseAgain;
    WideStmt { line, node }
}

#[tactic(auto, using(pt_wide::proofs::StatementFolds::statements))]
pub(crate) fn raised(
    line: Line,
    exception: Boxed<WideExpr>,
    cause: Option<Boxed<WideExpr>>,
) -> WideStmt
    ensures { stm_of result ≡ S.raise line.0 (exp_of exception) (opt_exp cause) }
{
    let node = WideStmtNode::Raise {
        exception: exception.into_inner(),
        cause: unboxed(cause),
    };
    WideStmt { line, node }
}

#[tactic(auto, using(pt_wide::proofs::StatementFolds::statements))]
pub(crate) fn global(line: Line, names: Seq<Text>) -> WideStmt
    ensures { stm_of result ≡ S.global line.0 names }
{
    let node = WideStmtNode::Global(names);
    WideStmt { line, node }
}

#[tactic(auto, using(pt_wide::proofs::StatementFolds::statements))]
pub(crate) fn nonlocal(line: Line, names: Seq<Text>) -> WideStmt
    ensures { stm_of result ≡ S.nonlocal line.0 names }
{
    let node = WideStmtNode::Nonlocal(names);
    WideStmt { line, node }
}

#[tactic(auto, using(pt_wide::proofs::StatementFolds::statements))]
pub(crate) fn deleted(line: Line, targets: Seq<WideExpr>) -> WideStmt
    ensures { stm_of result ≡ S.del line.0 (all_of (map exp_of targets)) }
{
    let node = WideStmtNode::Del(targets);
    WideStmt { line, node }
}

#[tactic(auto, using(pt_wide::proofs::StatementFolds::statements))]
pub(crate) fn assertion(
    line: Line,
    test: Boxed<WideExpr>,
    message: Option<Boxed<WideExpr>>,
) -> WideStmt
    ensures { stm_of result ≡ S.assert line.0 (exp_of test) (opt_exp message) }
{
    let node = WideStmtNode::Assert {
        test: test.into_inner(),
        message: unboxed(message),
    };
    WideStmt { line, node }
}

#[tactic(auto, using(pt_wide::proofs::StatementFolds::statements))]
pub(crate) fn import(line: Line, names: Seq<Alias>) -> WideStmt
    ensures { stm_of result ≡ S.import line.0 names }
{
    let node = WideStmtNode::Import(names);
    WideStmt { line, node }
}

#[tactic(auto, using(pt_wide::proofs::StatementFolds::statements))]
pub(crate) fn import_from(
    line: Line,
    dots: u32,
    origin: Text,
    names: Option<Seq<Alias>>,
) -> WideStmt
    ensures { stm_of result ≡ S.import_from line.0 dots origin names }
{
    let node = WideStmtNode::ImportFrom {
        dots,
        origin,
        names,
    };
    WideStmt { line, node }
}

#[tactic(auto, using(pt_wide::proofs::StatementFolds::statements))]
pub(crate) fn assigned(line: Line, targets: Seq<WideExpr>, value: Boxed<WideExpr>) -> WideStmt
    ensures { stm_of result ≡ S.assign line.0 (all_of (map exp_of targets)) (exp_of value) }
{
    let node = WideStmtNode::Assign {
        targets,
        value: value.into_inner(),
    };
    WideStmt { line, node }
}

#[tactic(auto, using(pt_wide::proofs::StatementFolds::statements))]
pub(crate) fn augmented(
    line: Line,
    target: Boxed<WideExpr>,
    operator: BinOp,
    value: Boxed<WideExpr>,
) -> WideStmt
    ensures { stm_of result ≡ S.augmented line.0 (exp_of target) operator (exp_of value) }
{
    let node = WideStmtNode::Augmented {
        target: target.into_inner(),
        operator,
        value: value.into_inner(),
    };
    WideStmt { line, node }
}

#[tactic(auto, using(pt_wide::proofs::StatementFolds::statements))]
pub(crate) fn annotated(
    line: Line,
    target: Boxed<WideExpr>,
    annotation: Boxed<WideExpr>,
    value: Option<Boxed<WideExpr>>,
) -> WideStmt
    ensures { stm_of result ≡ S.annotated line.0 (exp_of target) (exp_of annotation) (opt_exp value) }
{
    let node = WideStmtNode::Annotated {
        target: target.into_inner(),
        annotation: annotation.into_inner(),
        value: unboxed(value),
    };
    WideStmt { line, node }
}

#[tactic(auto, using(pt_wide::proofs::StatementFolds::statements))]
pub(crate) fn while_statement(
    line: Line,
    test: Boxed<WideExpr>,
    body: Seq<WideStmt>,
    otherwise: Seq<WideStmt>,
) -> WideStmt
    ensures { stm_of result ≡ S.while line.0 (exp_of test) (stms_of body) (stms_of otherwise) }
{
    let node = WideStmtNode::While {
        test: test.into_inner(),
        body,
        otherwise,
    };
    WideStmt { line, node }
}

#[tactic(auto, using(pt_wide::proofs::StatementFolds::statements))]
pub(crate) fn iteration(
    line: Line,
    target: Boxed<WideExpr>,
    iterable: Boxed<WideExpr>,
    body: Seq<WideStmt>,
    otherwise: Seq<WideStmt>,
) -> WideStmt
    ensures { stm_of result ≡ S.for line.0 (exp_of target) (exp_of iterable) (stms_of body) (stms_of otherwise) }
{
    let node = WideStmtNode::For {
        target: target.into_inner(),
        iterable: iterable.into_inner(),
        body,
        otherwise,
    };
    WideStmt { line, node }
}

/// A branch of a choice.
pub(crate) fn if_branch(line: Line, test: Boxed<WideExpr>, body: Seq<WideStmt>) -> WideBranch
    ensures { branch_in result ≡ branch_parts line.0 (exp_of test) (map stm_of body) }
{
    WideBranch {
        line,
        test: test.into_inner(),
        body,
    }
}

#[tactic(auto, using(pt_wide::proofs::StatementFolds::statements))]
pub(crate) fn choice(line: Line, branches: Seq<WideBranch>, otherwise: Seq<WideStmt>) -> WideStmt
    ensures { stm_of result ≡ S.choice line.0 (branches_of (map branch_in branches)) (stms_of otherwise) }
{
    let node = WideStmtNode::If {
        branches,
        otherwise,
    };
    WideStmt { line, node }
}

pub(crate) fn decorator(line: Line, value: Boxed<WideExpr>) -> WideDecorator
    ensures { decorator_in result ≡ a_decorator line.0 (exp_of value) }
{
    WideDecorator {
        line,
        value: value.into_inner(),
    }
}

pub(crate) fn function(
    line: Line,
    decorators: Seq<WideDecorator>,
    at: Line,
    signature: Signature,
    body: Seq<WideStmt>,
) -> WideStmt
    ensures { stm_of result ≡ S.def line.0 (decorators_from (map decorator_in decorators)) at.0 signature.name (params_of (gathered_read signature.parameters)) (opt_exp signature.returns) (stms_of body) }
{
    let node = WideStmtNode::Def {
        decorators,
        line: at,
        name: signature.name,
        parameters: signature.parameters.tree,
        returns: unboxed(signature.returns),
        body,
    };
    WideStmt { line, node }
}

pub(crate) fn class(
    line: Line,
    decorators: Seq<WideDecorator>,
    at: Line,
    name: Text,
    bases: Bases,
    body: Seq<WideStmt>,
) -> WideStmt
    ensures { stm_of result ≡ S.class line.0 (decorators_from (map decorator_in decorators)) at.0 name (args_in bases.arguments) bases.trailing_comma (stms_of body) }
{
    let node = WideStmtNode::Class {
        decorators,
        line: at,
        name,
        arguments: bases.arguments,
        trailing_comma: bases.trailing_comma,
        body,
    };
    WideStmt { line, node }
}

pub(crate) fn handler(line: Line, catch: Catch, body: Seq<WideStmt>) -> WideHandler
    ensures { handler_in result ≡ handler_at line.0 (catch_in catch) (map stm_of body) }
{
    WideHandler {
        line,
        star: catch.star,
        class: unboxed(catch.class),
        name: catch.name,
        body,
    }
}

pub(crate) fn attempt(
    line: Line,
    body: Seq<WideStmt>,
    handlers: Seq<WideHandler>,
    otherwise: Seq<WideStmt>,
    finally: Seq<WideStmt>,
) -> WideStmt
    ensures { stm_of result ≡ S.try line.0 (stms_of body) (handlers_from (map handler_in handlers)) (stms_of otherwise) (stms_of finally) }
{
    let node = WideStmtNode::Try {
        body,
        handlers,
        otherwise,
        finally,
    };
    WideStmt { line, node }
}

pub(crate) fn with(line: Line, items: Seq<WideItem>, body: Seq<WideStmt>) -> WideStmt
    ensures { stm_of result ≡ S.with line.0 (items_from (map item_in items)) (stms_of body) }
{
    let node = WideStmtNode::With { items, body };
    WideStmt { line, node }
}
