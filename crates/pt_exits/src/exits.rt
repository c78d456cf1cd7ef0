//! Whether a `break` or a `continue` of the loop around stands in statements (Language Reference 7.9,
//! 7.10).

ghost use Rattle.std.specs.Prelude.{◌≡◌, map};
ghost use Rattle.pt_tree.specs.Syntax.{no_branches, no_handlers};
ghost use Rattle.pt_tree.specs.Fold.{chained};
ghost use Rattle.pt_tree.specs.StatementFold.{branch_of, handler_of, stm_of, stms_of};
ghost use Rattle.sem_compile.specs.stm_pieces.Needed.{exits as exits_of, some_exits as some_exits_of, some_branch_exits as some_branch_exits_of, some_handler_exits as some_handler_exits_of, is_break as is_break_exit};

use pt_assembler::Exit;
use pt_tree::{Branch, Handler, Stmt, StmtNode};

#[cycle(exits)]
#[tactic(auto, using(pt_tree::proofs::StatementFolds::statements))]
fn exits(exit: Exit, s: &Stmt) -> bool
    ensures { result ≡ exits_of exit (stm_of s.now) }
{
    match &s.node {
        StmtNode::Expr(_) => false,
        StmtNode::Assign { .. } => false,
        StmtNode::Augmented { .. } => false,
        StmtNode::Annotated { .. } => false,
        StmtNode::Assert { .. } => false,
        StmtNode::Pass => false,
        StmtNode::Del(_) => false,
        StmtNode::Return(_) => false,
        StmtNode::Raise { .. } => false,
        StmtNode::RaiseAgain => false,
        StmtNode::Break => is_break(exit),
        StmtNode::Continue => !is_break(exit),
        StmtNode::Import(_) => false,
        StmtNode::ImportFrom { .. } => false,
        StmtNode::Global(_) => false,
        StmtNode::Nonlocal(_) => false,
        StmtNode::If {
            branches,
            otherwise,
        } => {
            some_branch_exits(exit, branches.as_slice()) || some_exits(exit, otherwise.as_slice())
        }
        StmtNode::While { otherwise, .. } => some_exits(exit, otherwise.as_slice()),
        StmtNode::For { otherwise, .. } => some_exits(exit, otherwise.as_slice()),
        StmtNode::Try {
            body,
            handlers,
            otherwise,
            finally,
        } => {
            some_exits(exit, body.as_slice())
                || some_handler_exits(exit, handlers.as_slice())
                || some_exits(exit, otherwise.as_slice())
                || some_exits(exit, finally.as_slice())
        }
        StmtNode::With { body, .. } => some_exits(exit, body.as_slice()),
        StmtNode::Def { .. } => false,
        StmtNode::Class { .. } => false,
    }
}

fn is_break(exit: Exit) -> bool
    ensures { result ≡ is_break_exit exit }
{
    match exit {
        Exit::Break => true,
        Exit::Continue => false,
    }
}

/// Whether such an exit stands in one of the statements.
#[cycle(exits)]
#[tactic(auto, using(pt_tree::proofs::StatementFolds::statements))]
pub fn some_exits(exit: Exit, statements: &[Stmt]) -> bool
    ensures { result ≡ some_exits_of exit (stms_of statements.now) }
{
    for s in statements {
        if exits(exit, s) {
            return true;
        }
    }
    false
}

#[cycle(exits)]
#[tactic(auto, using(pt_tree::proofs::StatementFolds::statements))]
fn some_branch_exits(exit: Exit, branches: &[Branch]) -> bool
    ensures { result ≡ some_branch_exits_of exit (chained no_branches (map branch_of branches.now)) }
{
    for branch in branches {
        if some_exits(exit, branch.body.as_slice()) {
            return true;
        }
    }
    false
}

#[cycle(exits)]
#[tactic(auto, using(pt_tree::proofs::StatementFolds::statements))]
fn some_handler_exits(exit: Exit, handlers: &[Handler]) -> bool
    ensures { result ≡ some_handler_exits_of exit (chained no_handlers (map handler_of handlers.now)) }
{
    for handler in handlers {
        if some_exits(exit, handler.body.as_slice()) {
            return true;
        }
    }
    false
}
