//! The `if` statement (Language Reference 8.1).

ghost use Rattle.std.specs.Prelude.{◌≡◌, map, OnOk};
ghost use Rattle.pt_tree.specs.Syntax.{no_branches};
ghost use Rattle.pt_tree.specs.Fold.{chained, exp_of};
ghost use Rattle.pt_tree.specs.StatementFold.{branch_of, stms_of};
ghost use Rattle.pt_write_simple.specs.pt_stm_forms.Compound.{behind_branch, behind_branches};

use crate::statements::suite_code;
use pt_assembler::{Jump, Label, Operation, Writer};
use pt_base::{Line, Memory};
use pt_block_names::BlockNames;
use pt_exits::Behind;
use pt_tree::{Branch, Expr, Stmt};
use pt_write_simple::value_code;

/// The code of `if` and each `elif`, whose end is this.
#[cycle(statements)]
#[tactic(auto, using(crate::proofs::Rules::branches))]
pub fn branches_code(
    w: &mut Writer,
    names: &BlockNames,
    branches: &[Branch],
    end: Label,
) -> Result<(), Memory>
    ensures { OnOk result (w.new ≡ behind_branches names.now
        (chained no_branches (map branch_of branches.now)) end w.old) }
{
    for branch in branches {
        branch_code(
            w,
            names,
            branch.line,
            branch.body.as_slice(),
            &branch.test,
            end,
        )?;
    }
    Ok(())
}

/// A branch: its test, a jump to the next where that is false, its statements, and a jump to the end.
#[cycle(statements)]
fn branch_code(
    w: &mut Writer,
    names: &BlockNames,
    line: Line,
    body: &[Stmt],
    test: &Expr,
    end: Label,
) -> Result<(), Memory>
    ensures { OnOk result
        (w.new ≡ behind_branch names.now (exp_of test.now) (stms_of body.now) end line.0 w.old) }
{
    let next = w.label()?;
    value_code(w, names, test, false)?;
    w.act(Operation::To(Jump::IfFalse, next), line, false)?;
    suite_code(w, names, body, Behind::Free)?;
    w.step(Operation::To(Jump::Always, end))?;
    w.bind(next);
    Ok(())
}
