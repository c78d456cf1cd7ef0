//! Statements one after the other.

ghost use Rattle.std.specs.Prelude.{◌≡◌, ◌&&◌, OnOk};
ghost use Rattle.pt_tree.specs.StatementFold.{stm_of, stms_of};
ghost use Rattle.pt_write_ops.specs.sem_compile.stm_pieces.Needed.{is_needed as is_needed_behind, leaves as leaves_statement};
ghost use Rattle.pt_exits.specs.Asked.{asked};
ghost use Rattle.pt_write_simple.specs.pt_stm_forms.Simple.{behind_stm};
ghost use Rattle.pt_write_simple.specs.pt_stm_forms.Compound.{behind_start, behind_suite, behind_untaken};

use crate::choices::branches_code;
use crate::contexts::with_statement;
use crate::loops::{for_loop, while_loop};
use crate::places::truth;
use crate::tries::{TriedBody, TryStart, each_handler, end_else, end_try, skip_acts};
use pt_act_counts::handler_acts;
use pt_assembler::{Exit, Jump, Operation, Writer};
use pt_base::Memory;
use pt_block_names::BlockNames;
use pt_exits::{
    Behind, behind_branches, behind_loop, behind_tried, in_front, is_needed, is_silent, leaves,
    some_branch_goes_on, some_exits,
};
use pt_instr::Instr;
use pt_tree::{Stmt, StmtNode};
use pt_write_ops::plain;
use pt_write_simple::{
    annotated_assignment, assertion, assignment, augmented_assignment, class_definition, deletion,
    exit_statement, expression_statement, function_definition, import_from_statement,
    import_statement, raise_statement, return_statement,
};

/// The code of statements, of whose last this is asked of the place behind it.
#[cycle(statements)]
#[tactic(auto, using(crate::proofs::Rules::suites))]
pub fn suite_code(
    w: &mut Writer,
    names: &BlockNames,
    body: &[Stmt],
    behind: Behind,
) -> Result<(), Memory>
    ensures { OnOk result
        (w.new ≡ behind_suite names.now (stms_of body.now) (asked behind) w.old) }
{
    for (i, s) in body.iter().enumerate() {
        let behind_it = in_front(&body[i + 1..], behind);
        start_statement(w, names, s, behind_it)?;
    }
    Ok(())
}

/// A statement with its start, which has a place of its own, and with a way to the place behind it.
#[cycle(statements)]
#[tactic(auto, using(crate::proofs::Rules::starts))]
fn start_statement(
    w: &mut Writer,
    names: &BlockNames,
    s: &Stmt,
    behind: Behind,
) -> Result<(), Memory>
    ensures { OnOk result
        (w.new ≡ behind_start names.now (stm_of s.now) (asked behind) w.old) }
{
    w.start(s.line)?;
    if is_silent(s) {
        w.step(Operation::Plain(Instr::Nop))?;
        statement(w, names, s, behind)
    } else if wants_branch(s, behind) {
        untaken_branch(w, names, s, behind)
    } else {
        statement(w, names, s, behind)
    }
}

/// Whether a way must lead to behind a statement that leaves.
fn wants_branch(s: &Stmt, behind: Behind) -> bool
    ensures { result ≡ (leaves_statement (stm_of s.now) && is_needed_behind (asked behind)) }
{
    leaves(s) && is_needed(behind)
}

/// A statement that leaves, behind a branch to behind it that is never taken.
#[cycle(statements)]
fn untaken_branch(
    w: &mut Writer,
    names: &BlockNames,
    s: &Stmt,
    behind: Behind,
) -> Result<(), Memory>
    ensures { OnOk result
        (w.new ≡ behind_untaken names.now (stm_of s.now) (asked behind) w.old) }
{
    let end = w.label()?;
    truth(w)?;
    w.step(Operation::To(Jump::IfFalse, end))?;
    statement(w, names, s, behind)?;
    w.bind(end);
    Ok(())
}

/// The code of a statement.
#[cycle(statements)]
fn statement(w: &mut Writer, names: &BlockNames, s: &Stmt, behind: Behind) -> Result<(), Memory>
    ensures { OnOk result
        (w.new ≡ behind_stm names.now (stm_of s.now) (asked behind) w.old) }
{
    let line = s.line;
    match &s.node {
        StmtNode::Expr(value) => expression_statement(w, names, line, value),
        StmtNode::Assign { targets, value } => assignment(w, names, targets.as_slice(), value),
        StmtNode::Augmented {
            target,
            operator,
            value,
        } => augmented_assignment(w, names, line, target, *operator, value),
        StmtNode::Annotated { target, value, .. } => {
            annotated_assignment(w, names, line, target, value)
        }
        StmtNode::Assert { test, message } => assertion(w, names, line, test, message),
        StmtNode::Pass => plain(w, Instr::Nop, line, false),
        StmtNode::Del(targets) => deletion(w, names, targets.as_slice()),
        StmtNode::Return(value) => return_statement(w, names, line, value),
        StmtNode::Raise { exception, cause } => {
            raise_statement(w, names, line, exception, cause)
        }
        StmtNode::RaiseAgain => plain(w, Instr::RaiseAgain, line, false),
        StmtNode::Break => exit_statement(w, Exit::Break, line),
        StmtNode::Continue => exit_statement(w, Exit::Continue, line),
        StmtNode::Import(aliases) => import_statement(w, names, line, aliases.as_slice()),
        StmtNode::ImportFrom {
            origin,
            names: aliases,
        } => import_from_statement(w, names, line, origin.as_str(), aliases.as_slice()),
        StmtNode::Global(_) => Ok(()),
        StmtNode::Nonlocal(_) => Ok(()),
        StmtNode::If {
            branches,
            otherwise,
        } => {
            let end = w.label()?;
            branches_code(w, names, branches.as_slice(), end)?;
            let goes_on = some_branch_goes_on(branches.as_slice());
            let behind_it = behind_branches(goes_on, behind);
            suite_code(w, names, otherwise.as_slice(), behind_it)?;
            w.bind(end);
            Ok(())
        }
        StmtNode::While {
            test,
            body,
            otherwise,
        } => {
            let end = while_loop(w, names, line, body.as_slice(), test)?;
            let behind_it = behind_loop(some_exits(Exit::Break, body.as_slice()), behind);
            suite_code(w, names, otherwise.as_slice(), behind_it)?;
            w.bind(end);
            Ok(())
        }
        StmtNode::For {
            target,
            iterable,
            body,
            otherwise,
        } => {
            let end = for_loop(w, names, line, body.as_slice(), target, iterable)?;
            let behind_it = behind_loop(some_exits(Exit::Break, body.as_slice()), behind);
            suite_code(w, names, otherwise.as_slice(), behind_it)?;
            w.bind(end);
            Ok(())
        }
        StmtNode::Try {
            body,
            handlers,
            otherwise,
            finally,
        } => {
            plain(w, Instr::Nop, line, false)?;
            let start = TryStart {
                from: w.at(),
                depth: w.place().depth,
            };
            let tried = behind_tried(handlers.as_slice(), finally.as_slice(), behind);
            let behind_body = in_front(otherwise.as_slice(), tried);
            if handlers.as_slice().len() == 0 {
                suite_code(w, names, body.as_slice(), behind_body)?;
                suite_code(w, names, otherwise.as_slice(), tried)?;
                let last = w.next_act();
                return end_try(w, names, finally.as_slice(), behind, start, last);
            }
            let end = w.label()?;
            let count = handler_acts(handlers.as_slice())?;
            let from = w.at();
            suite_code(w, names, body.as_slice(), behind_body)?;
            let covered = TriedBody {
                from,
                to: w.at(),
                depth: start.depth,
                first: w.next_act(),
            };
            skip_acts(w, count)?;
            suite_code(w, names, otherwise.as_slice(), tried)?;
            let last = w.next_act();
            end_else(w, covered, end)?;
            each_handler(w, names, handlers.as_slice(), end)?;
            w.bind(end);
            end_try(w, names, finally.as_slice(), behind, start, last)
        }
        StmtNode::With { items, body } => {
            with_statement(w, names, body.as_slice(), items.as_slice())
        }
        StmtNode::Def {
            decorators,
            line,
            block,
            name,
            parameters,
            ..
        } => function_definition(
            w,
            names,
            *line,
            decorators.as_slice(),
            *block,
            name.as_str(),
            parameters,
        ),
        StmtNode::Class {
            decorators,
            line,
            block,
            name,
            base,
            ..
        } => class_definition(
            w,
            names,
            *line,
            decorators.as_slice(),
            *block,
            name.as_str(),
            base,
        ),
    }
}
