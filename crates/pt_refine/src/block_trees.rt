//! The trees of the language that compound statements are (Language Reference 8). A function or a
//! class starts its block at its keyword, behind its decorators.

ghost use Rattle.std.specs.Prelude.{◌≡◌};
ghost use Rattle.pt_refine_expr.specs.Narrowed.{Makes, Puts};
ghost use Rattle.pt_refine_expr.specs.StatementBlocks.{blocks_branches, blocks_handlers, blocks_stms};
ghost use Rattle.pt_refine_expr.specs.StatementNarrow.{narrow_branches, narrow_handlers, narrow_stms};
ghost use Rattle.pt_refine.specs.StatementsNarrowed.{MakesBy, MakesStm, branches_of, handlers_of, narrow_classed, narrow_defined, narrow_guarded, narrow_iterated, narrow_repeated, narrow_tried, wide_branches, wide_handlers};
ghost use Rattle.pt_tree.specs.StatementFold as T;
ghost use Rattle.pt_wide.specs.StatementFold as W;

use crate::kept::without_star;
use crate::statement_nodes::{def_of, for_of, while_of};
use crate::statement_trees::{
    assignment, base, boxed_returned, boxed_target, decorators, entered, value,
};
use pt_base::{Dup, Seq};
use pt_refine_expr::{
    Narrower, Stars, Unnarrowed, boxed, boxed_parameters, copied_name, expression,
};
use pt_tree::{Branch, Handler, Stmt, StmtNode};
use pt_wide::{WideBranch, WideHandler, WideStmt, WideStmtNode};

/// Statements, one behind the other.
#[cycle(blocks)]
pub fn statements(n: &mut Narrower, block: &[WideStmt]) -> Result<Seq<Stmt>, Unnarrowed>
    ensures { Makes T.stms_of result (narrow_stms n.old (W.stms_of block.now)) n.old (blocks_stms (W.stms_of block.now)) n.new }
{
    let mut made = Seq::new(n.alloc());
    for one in block {
        let one = statement(n, one)?;
        made.push(one)?;
    }
    Ok(made)
}

#[cycle(blocks)]
fn branches(n: &mut Narrower, tests: &[WideBranch]) -> Result<Seq<Branch>, Unnarrowed>
    ensures { Makes branches_of result (narrow_branches n.old (wide_branches tests.now)) n.old (blocks_branches (wide_branches tests.now)) n.new }
{
    let mut made = Seq::new(n.alloc());
    for one in tests {
        let one = branch(n, one)?;
        made.push(one)?;
    }
    Ok(made)
}

/// `if` or `elif` (Language Reference 8.1).
#[cycle(blocks)]
fn branch(n: &mut Narrower, one: &WideBranch) -> Result<Branch, Unnarrowed>
    ensures { Puts T.branch_of result (λ r. narrow_branches n.old (W.branch_of one.now r)) (narrow_branches n.new) n.old (λ r. blocks_branches (W.branch_of one.now r)) n.new blocks_branches }
{
    let test = expression(n, &one.test)?;
    let body = statements(n, one.body.as_slice())?;
    Ok(Branch {
        line: one.line,
        test,
        body,
    })
}

#[cycle(blocks)]
fn handlers(n: &mut Narrower, clauses: &[WideHandler]) -> Result<Seq<Handler>, Unnarrowed>
    ensures { Makes handlers_of result (narrow_handlers n.old (wide_handlers clauses.now)) n.old (blocks_handlers (wide_handlers clauses.now)) n.new }
{
    let mut made = Seq::new(n.alloc());
    for one in clauses {
        let one = handler(n, one)?;
        made.push(one)?;
    }
    Ok(made)
}

/// `except` without a `*` (Language Reference 8.4.1).
#[cycle(blocks)]
fn handler(n: &mut Narrower, one: &WideHandler) -> Result<Handler, Unnarrowed>
    ensures { Puts T.handler_of result (λ r. narrow_handlers n.old (W.handler_of one.now r)) (narrow_handlers n.new) n.old (λ r. blocks_handlers (W.handler_of one.now r)) n.new blocks_handlers }
{
    without_star(one.star)?;
    let class = value(n, &one.class)?;
    let name = copied_name(n.alloc(), &one.name)?;
    let body = statements(n, one.body.as_slice())?;
    Ok(Handler {
        line: one.line,
        class,
        name,
        body,
    })
}

/// A statement (Language Reference 7, 8). Each kind that has a block has a frame of its own, so that
/// blocks inside blocks take room for their own kinds alone; and so have the kinds without blocks,
/// which no compiler makes a part of the last one with a block, since they are called here too.
#[cycle(blocks)]
fn statement(n: &mut Narrower, s: &WideStmt) -> Result<Stmt, Unnarrowed>
    ensures { MakesStm result n.old (W.stm_of s.now) n.new }
{
    match &s.node {
        WideStmtNode::If { .. } => conditional(n, s),
        WideStmtNode::While { .. } => repeated(n, s),
        WideStmtNode::For { .. } => iterated(n, s),
        WideStmtNode::Try { .. } => tried(n, s),
        WideStmtNode::With { .. } => guarded(n, s),
        WideStmtNode::Def { .. } => defined(n, s),
        WideStmtNode::Class { .. } => classed(n, s),
        WideStmtNode::Assign { .. } => assignment(n, s),
        _ => conditional(n, s),
    }
}

/// `if` (Language Reference 8.1), or what comes behind.
#[cycle(blocks)]
fn conditional(n: &mut Narrower, s: &WideStmt) -> Result<Stmt, Unnarrowed>
    ensures { MakesStm result n.old (W.stm_of s.now) n.new }
{
    let line = s.line;
    match &s.node {
        WideStmtNode::If {
            branches: tests,
            otherwise,
        } => {
            let branches = branches(n, tests.as_slice())?;
            let otherwise = statements(n, otherwise.as_slice())?;
            Ok(Stmt {
                line,
                node: StmtNode::If {
                    branches,
                    otherwise,
                },
            })
        }
        _ => repeated(n, s),
    }
}

/// `while` (Language Reference 8.2).
#[cycle(blocks)]
fn repeated(n: &mut Narrower, s: &WideStmt) -> Result<Stmt, Unnarrowed>
    ensures { MakesBy narrow_repeated result n.old (W.stm_of s.now) n.new }
{
    let line = s.line;
    match &s.node {
        WideStmtNode::While {
            test,
            body,
            otherwise,
        } => {
            let test = boxed(n, test)?;
            let body = statements(n, body.as_slice())?;
            let otherwise = statements(n, otherwise.as_slice())?;
            Ok(while_of(line, test, body, otherwise))
        }
        _ => iterated(n, s),
    }
}

/// `for` (Language Reference 8.3).
#[cycle(blocks)]
fn iterated(n: &mut Narrower, s: &WideStmt) -> Result<Stmt, Unnarrowed>
    ensures { MakesBy narrow_iterated result n.old (W.stm_of s.now) n.new }
{
    let line = s.line;
    match &s.node {
        WideStmtNode::For {
            target: place,
            iterable,
            body,
            otherwise,
        } => {
            let target = boxed_target(n, Stars::Inside, place)?;
            let iterable = boxed(n, iterable)?;
            let body = statements(n, body.as_slice())?;
            let otherwise = statements(n, otherwise.as_slice())?;
            Ok(for_of(line, target, iterable, body, otherwise))
        }
        _ => tried(n, s),
    }
}

/// `try` (Language Reference 8.4).
#[cycle(blocks)]
fn tried(n: &mut Narrower, s: &WideStmt) -> Result<Stmt, Unnarrowed>
    ensures { MakesBy narrow_tried result n.old (W.stm_of s.now) n.new }
{
    let line = s.line;
    match &s.node {
        WideStmtNode::Try {
            body,
            handlers: clauses,
            otherwise,
            finally,
        } => {
            let body = statements(n, body.as_slice())?;
            let handlers = handlers(n, clauses.as_slice())?;
            let otherwise = statements(n, otherwise.as_slice())?;
            let finally = statements(n, finally.as_slice())?;
            Ok(Stmt {
                line,
                node: StmtNode::Try {
                    body,
                    handlers,
                    otherwise,
                    finally,
                },
            })
        }
        _ => guarded(n, s),
    }
}

/// `with` (Language Reference 8.5).
#[cycle(blocks)]
fn guarded(n: &mut Narrower, s: &WideStmt) -> Result<Stmt, Unnarrowed>
    ensures { MakesBy narrow_guarded result n.old (W.stm_of s.now) n.new }
{
    let line = s.line;
    match &s.node {
        WideStmtNode::With { items, body } => {
            let items = entered(n, items.as_slice())?;
            let body = statements(n, body.as_slice())?;
            Ok(Stmt {
                line,
                node: StmtNode::With { items, body },
            })
        }
        _ => defined(n, s),
    }
}

/// A function (Language Reference 8.7).
#[cycle(blocks)]
fn defined(n: &mut Narrower, s: &WideStmt) -> Result<Stmt, Unnarrowed>
    ensures { MakesBy narrow_defined result n.old (W.stm_of s.now) n.new }
{
    let line = s.line;
    match &s.node {
        WideStmtNode::Def {
            decorators: marks,
            line: def_line,
            name,
            parameters: names,
            returns,
            body,
        } => {
            let decorators = decorators(n, marks.as_slice())?;
            let block = n.start()?;
            let parameters = boxed_parameters(n, names)?;
            let returns = boxed_returned(n, returns)?;
            let body = statements(n, body.as_slice())?;
            let name = name.dup(n.alloc())?;
            Ok(def_of(
                line, decorators, *def_line, block, name, parameters, returns, body,
            ))
        }
        _ => classed(n, s),
    }
}

/// A class (Language Reference 8.8).
#[cycle(blocks)]
fn classed(n: &mut Narrower, s: &WideStmt) -> Result<Stmt, Unnarrowed>
    ensures { MakesBy narrow_classed result n.old (W.stm_of s.now) n.new }
{
    let line = s.line;
    match &s.node {
        WideStmtNode::Class {
            decorators: marks,
            line: class_line,
            name,
            arguments,
            trailing_comma,
            body,
        } => {
            let decorators = decorators(n, marks.as_slice())?;
            let block = n.start()?;
            let base = base(n, arguments.as_slice(), *trailing_comma)?;
            let body = statements(n, body.as_slice())?;
            let name = name.dup(n.alloc())?;
            Ok(Stmt {
                line,
                node: StmtNode::Class {
                    decorators,
                    line: *class_line,
                    block,
                    name,
                    base,
                    body,
                },
            })
        }
        _ => assignment(n, s),
    }
}
