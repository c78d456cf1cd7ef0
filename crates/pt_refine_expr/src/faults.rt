//! The first node of a wide tree that the language leaves out.

ghost use Rattle.std.specs.Prelude.{◌≡◌, option_map};
ghost use Rattle.pt_refine_expr.specs.Faults.{faults_exp};
ghost use Rattle.pt_refine_expr.specs.First.{fault_of, first_of};
ghost use Rattle.pt_refine_expr.specs.StatementFaults.{faults_stms};
ghost use Rattle.pt_wide.specs.Fold.{exp_of};
ghost use Rattle.pt_wide.specs.StatementFold.{script_of};

use crate::expression_faults::check_expression;
use crate::fault::Fault;
use crate::statement_faults::check_statements;
use pt_wide::{WideExpr, WideScript};

/// The node of a script that the language leaves out and that starts first, and at one node a bad
/// target before a form that is left out; `None` where the script is one of the language. It takes
/// no memory but a stack that is as deep as the tree (Language Reference 6 to 8).
pub fn first_fault(script: &WideScript) -> Option<Fault>
    ensures { option_map fault_of result ≡ first_of (faults_stms (script_of script.now)) }
{
    check_statements(script.body.as_slice()).err()
}

/// The node of an expression that the language leaves out and that starts first
/// (Language Reference 6).
pub fn first_fault_of_expr(e: &WideExpr) -> Option<Fault>
    ensures { option_map fault_of result ≡ first_of (faults_exp (exp_of e.now)) }
{
    check_expression(e).err()
}
