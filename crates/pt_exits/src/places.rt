//! Which statements never go on, and which have no instruction in front of the statements within.

ghost use Rattle.std.specs.Prelude.{◌≡◌, map};
ghost use Rattle.pt_tree.specs.Fold.{target_of, targets_of};
ghost use Rattle.pt_tree.specs.StatementFold.{stm_of};
ghost use Rattle.sem_control.specs.control.Statements.{all_places, places};
ghost use Rattle.sem_compile.specs.stm_pieces.Needed.{is_nowhere as is_nowhere_in, is_silent as is_silent_statement, leaves as leaves_statement};

use pt_tree::{Stmt, StmtNode, Target, TargetNode};

/// Whether a statement never goes on by itself.
#[tactic(auto, using(pt_tree::proofs::StatementFolds::statements))]
pub fn leaves(s: &Stmt) -> bool
    ensures { result ≡ leaves_statement (stm_of s.now) }
{
    match &s.node {
        StmtNode::Expr(_) => false,
        StmtNode::Assign { .. } => false,
        StmtNode::Augmented { .. } => false,
        StmtNode::Annotated { .. } => false,
        StmtNode::Assert { .. } => false,
        StmtNode::Pass => false,
        StmtNode::Del(_) => false,
        StmtNode::Return(_) => true,
        StmtNode::Raise { .. } => true,
        StmtNode::RaiseAgain => true,
        StmtNode::Break => true,
        StmtNode::Continue => true,
        StmtNode::Import(_) => false,
        StmtNode::ImportFrom { .. } => false,
        StmtNode::Global(_) => false,
        StmtNode::Nonlocal(_) => false,
        StmtNode::If { .. } => false,
        StmtNode::While { .. } => false,
        StmtNode::For { .. } => false,
        StmtNode::Try { .. } => false,
        StmtNode::With { .. } => false,
        StmtNode::Def { .. } => false,
        StmtNode::Class { .. } => false,
    }
}

/// Whether a statement has no instruction in front of the statements within, if it has any.
#[tactic(auto, using(pt_tree::proofs::StatementFolds::statements, crate::proofs::ExitLemmas::silence))]
pub fn is_silent(s: &Stmt) -> bool
    ensures { result ≡ is_silent_statement (stm_of s.now) }
{
    match &s.node {
        StmtNode::Expr(_) => false,
        StmtNode::Assign { .. } => false,
        StmtNode::Augmented { .. } => false,
        StmtNode::Annotated { .. } => false,
        StmtNode::Assert { .. } => false,
        StmtNode::Pass => false,
        StmtNode::Del(targets) => is_nowhere(targets.as_slice()),
        StmtNode::Return(_) => false,
        StmtNode::Raise { .. } => false,
        StmtNode::RaiseAgain => false,
        StmtNode::Break => false,
        StmtNode::Continue => false,
        StmtNode::Import(names) => names.as_slice().len() == 0,
        StmtNode::ImportFrom { .. } => false,
        StmtNode::Global(_) => true,
        StmtNode::Nonlocal(_) => true,
        StmtNode::If { branches, .. } => branches.as_slice().len() == 0,
        StmtNode::While { .. } => false,
        StmtNode::For { .. } => false,
        StmtNode::Try { .. } => false,
        StmtNode::With { items, .. } => items.as_slice().len() == 0,
        StmtNode::Def { .. } => false,
        StmtNode::Class { .. } => false,
    }
}

/// Whether targets are empty tuples and lists alone.
#[cycle(nowhere)]
#[tactic(auto, using(pt_tree::proofs::Folds::expressions, crate::proofs::ExitLemmas::nowhere))]
fn is_nowhere(targets: &[Target]) -> bool
    ensures { result ≡ is_nowhere_in (all_places (targets_of (map target_of targets.now))) }
{
    for target in targets {
        if !is_empty_target(target) {
            return false;
        }
    }
    true
}

#[cycle(nowhere)]
#[tactic(auto, using(pt_tree::proofs::Folds::expressions))]
fn is_empty_target(target: &Target) -> bool
    ensures { result ≡ is_nowhere_in (places (target_of target.now)) }
{
    match &target.node {
        TargetNode::Place(_) => false,
        TargetNode::Tuple(targets) => is_nowhere(targets.as_slice()),
        TargetNode::List(targets) => is_nowhere(targets.as_slice()),
        TargetNode::Starred(target) => is_empty_target(target.get()),
    }
}
