//! Whether statements go on to the place behind them.

ghost use Rattle.std.specs.Prelude.{◌≡◌, ◌||◌, map};
ghost use Rattle.pt_tree.specs.Syntax.{no_branches, no_handlers};
ghost use Rattle.pt_tree.specs.Fold.{chained};
ghost use Rattle.pt_tree.specs.StatementFold.{branch_of, handler_of, stm_of, stms_of};
ghost use Rattle.sem_compile.specs.stm_pieces.Needed.{at_last as at_last_of, either as either_of, goes_on as goes_on_of, all_go_on as all_go_on_of, some_branch_goes_on as some_branch_goes_on_of, some_handler_goes_on as some_handler_goes_on_of, is_bound as is_bound_name};

use crate::exits::some_exits;
use pt_assembler::Exit;
use pt_base::Text;
use pt_tree::{Branch, Handler, Stmt, StmtNode};

#[cycle(fall_through)]
#[tactic(auto, using(pt_tree::proofs::StatementFolds::statements))]
fn goes_on(s: &Stmt) -> bool
    ensures { result ≡ goes_on_of (stm_of s.now) }
{
    match &s.node {
        StmtNode::Expr(_) => true,
        StmtNode::Assign { .. } => true,
        StmtNode::Augmented { .. } => true,
        StmtNode::Annotated { .. } => true,
        StmtNode::Assert { .. } => true,
        StmtNode::Pass => true,
        StmtNode::Del(_) => true,
        StmtNode::Return(_) => false,
        StmtNode::Raise { .. } => false,
        StmtNode::RaiseAgain => false,
        StmtNode::Break => false,
        StmtNode::Continue => false,
        StmtNode::Import(_) => true,
        StmtNode::ImportFrom { .. } => true,
        StmtNode::Global(_) => true,
        StmtNode::Nonlocal(_) => true,
        StmtNode::If {
            branches,
            otherwise,
        } => some_branch_goes_on(branches.as_slice()) || all_go_on(otherwise.as_slice()),
        StmtNode::While {
            body,
            otherwise,
            ..
        } => some_exits(Exit::Break, body.as_slice()) || all_go_on(otherwise.as_slice()),
        StmtNode::For {
            body,
            otherwise,
            ..
        } => some_exits(Exit::Break, body.as_slice()) || all_go_on(otherwise.as_slice()),
        StmtNode::Try {
            body,
            handlers,
            otherwise,
            finally,
        } => {
            let parts = TryParts {
                body: all_go_on(body.as_slice()),
                otherwise: all_go_on(otherwise.as_slice()),
                handlers: some_handler_goes_on(handlers.as_slice()),
                finally: all_go_on(finally.as_slice()),
            };
            try_goes_on(otherwise.as_slice(), finally.as_slice(), parts)
        }
        StmtNode::With { .. } => true,
        StmtNode::Def { .. } => true,
        StmtNode::Class { .. } => true,
    }
}

/// Which parts of a `try` go on.
#[derive(Clone, Copy, Debug, PartialEq, Eq)]
struct TryParts {
    body: bool,
    otherwise: bool,
    handlers: bool,
    finally: bool,
}

/// A `finally` part goes on with what it holds. The `else` part stands behind the body.
#[tactic(auto, using(crate::proofs::ExitLemmas::parts))]
fn try_goes_on(otherwise: &[Stmt], finally: &[Stmt], parts: TryParts) -> bool
    ensures { result ≡ at_last_of (stms_of finally.now) (either_of (stms_of otherwise.now)
        parts.body parts.otherwise || parts.handlers) parts.finally }
{
    if finally.len() > 0 {
        return parts.finally;
    }
    let tried = if otherwise.len() > 0 {
        parts.otherwise
    } else {
        parts.body
    };
    tried || parts.handlers
}

/// Whether the last of the statements goes on; without one the place behind is this one.
#[cycle(fall_through)]
#[tactic(auto, using(crate::proofs::ExitLemmas::ways))]
fn all_go_on(statements: &[Stmt]) -> bool
    ensures { result ≡ all_go_on_of (stms_of statements.now) }
{
    let count = statements.len();
    if count > 0 {
        goes_on(&statements[count - 1])
    } else {
        true
    }
}

/// Whether one of the branches of an `if` goes on.
#[cycle(fall_through)]
#[tactic(auto, using(pt_tree::proofs::StatementFolds::statements))]
pub fn some_branch_goes_on(branches: &[Branch]) -> bool
    ensures { result ≡ some_branch_goes_on_of (chained no_branches (map branch_of branches.now)) }
{
    for branch in branches {
        if all_go_on(branch.body.as_slice()) {
            return true;
        }
    }
    false
}

/// Whether one of the handlers of a `try` goes on.
#[cycle(fall_through)]
#[tactic(auto, using(pt_tree::proofs::StatementFolds::statements))]
pub fn some_handler_goes_on(handlers: &[Handler]) -> bool
    ensures { result ≡ some_handler_goes_on_of (chained no_handlers (map handler_of handlers.now)) }
{
    for handler in handlers {
        if is_bound(&handler.name) || all_go_on(handler.body.as_slice()) {
            return true;
        }
    }
    false
}

/// A handler that has bound a name goes on at its end, where that is unbound.
fn is_bound(name: &Option<Text>) -> bool
    ensures { result ≡ is_bound_name name.now }
{
    match name {
        None => false,
        Some(_) => true,
    }
}
