//! Blocks of statements and of lambdas (Language Reference 4.1).

ghost use Rattle.std.specs.Prelude.{◌≡◌, OnOk};
ghost use Rattle.pt_tree.specs.Blocks as B;
ghost use Rattle.pt_tree.specs.Fold.{exp_of};
ghost use Rattle.pt_tree.specs.StatementFold.{stm_of, stms_of};
ghost use Rattle.pt_instr.specs.declared.Instr.TheVariants.{Nop};
ghost use Rattle.sem_control.specs.control.Jump.{starts_on};
ghost use Rattle.pt_assembler.specs.declared.operation.Operation.TheVariants.{Plain as PlainOperation};
ghost use Rattle.pt_assembler.specs.Layout.{put, put_start};
ghost use Rattle.pt_write_ops.specs.sem_compile.stm_pieces.Needed.{free};
ghost use Rattle.pt_write_simple.specs.pt_stm_forms.Compound.{behind_suite};
ghost use Rattle.pt_write_simple.specs.pt_stm_forms.Blocks.{behind_code, returned_none};

use crate::docstrings::is_docstring;
use crate::statements::suite_code;
use pt_assembler::{Operation, Writer};
use pt_base::{Line, Memory};
use pt_block_names::BlockNames;
use pt_exits::Behind;
use pt_instr::Instr;
use pt_tree::{Expr, Stmt};
use pt_write_ops::{null, plain};
use pt_write_simple::value_code;

/// The code of the block of a module or a class.
#[tactic(auto, using(crate::proofs::Rules::blocks))]
pub fn statements(w: &mut Writer, names: &BlockNames, body: &[Stmt]) -> Result<(), Memory>
    requires { w.old.act ≡ 0 }
    ensures { OnOk result (w.new ≡ behind_code names.now (B.of_module (stms_of body.now)) w.old) }
{
    suite_code(w, names, body, Behind::Free)?;
    end_block(w)
}

/// A block of statements gives None at its end.
pub fn end_block(w: &mut Writer) -> Result<(), Memory>
    ensures { OnOk result (w.new ≡ returned_none w.old) }
{
    null(w)?;
    w.step(Operation::Plain(Instr::Return))
}

/// The code of the block of a function. Its documentation string doesn't run.
#[tactic(auto, using(crate::proofs::Rules::blocks))]
pub fn function(w: &mut Writer, names: &BlockNames, body: &[Stmt]) -> Result<(), Memory>
    requires { w.old.act ≡ 0 }
    ensures { OnOk result
        (w.new ≡ behind_code names.now (B.of_function (stms_of body.now)) w.old) }
{
    function_body(w, names, body)?;
    end_block(w)
}

#[tactic(auto, using(crate::proofs::Rules::bodies))]
fn function_body(w: &mut Writer, names: &BlockNames, body: &[Stmt]) -> Result<(), Memory>
    ensures { OnOk result
        (w.new ≡ behind_suite names.now (B.function_body (stms_of body.now)) free w.old) }
{
    match body.first() {
        None => Ok(()),
        Some(first) => {
            if is_docstring(first) {
                documented_body(w, names, first, &body[1..])
            } else {
                suite_code(w, names, body, Behind::Free)
            }
        }
    }
}

/// A documentation string has a place alone.
#[tactic(auto, using(crate::proofs::Rules::lines))]
fn documented_body(
    w: &mut Writer,
    names: &BlockNames,
    first: &Stmt,
    rest: &[Stmt],
) -> Result<(), Memory>
    ensures { OnOk result (w.new ≡ behind_suite names.now (stms_of rest.now) free
        (put (PlainOperation Nop) (put_start (starts_on (stm_of first.now)) w.old))) }
{
    w.start(first.line)?;
    w.step(Operation::Plain(Instr::Nop))?;
    suite_code(w, names, rest, Behind::Free)
}

/// The code of the block of a lambda.
#[tactic(auto, using(crate::proofs::Rules::blocks))]
pub fn lambda(w: &mut Writer, names: &BlockNames, line: Line, body: &Expr) -> Result<(), Memory>
    requires { w.old.act ≡ 0 }
    ensures { OnOk result
        (w.new ≡ behind_code names.now (B.of_lambda line.0 (exp_of body.now)) w.old) }
{
    value_code(w, names, body, false)?;
    plain(w, Instr::Return, line, false)
}
