//! The script of the language that a script of the wide grammar is, or what the language leaves out
//! of it (Language Reference 6 to 8).

ghost use Rattle.std.specs.Prelude.{◌≡◌, Some, IfOk, IfErr};
ghost use Rattle.pt_refine_expr.specs.StatementFaults.{faults_stms};
ghost use Rattle.pt_refine_expr.specs.StatementNarrow.{narrow_script};
ghost use Rattle.pt_refine_expr.specs.Told.{IsTold};
ghost use Rattle.pt_tree.specs.StatementFold.{script_of};
ghost use Rattle.pt_wide.specs.StatementFold.{script_of as wide_script_of};

use crate::block_trees::statements;
use pt_refine_expr::{Narrower, Narrowing, Unnarrowed, first_fault, told};
use pt_tree::Script;
use pt_wide::WideScript;
use std::alloc::Global;

/// The script of the language that a script of the wide grammar is, or what the language leaves out
/// (Language Reference 6 to 8).
pub fn narrow(alloc: Global, script: &WideScript) -> Result<Script, Narrowing>
    ensures ok { IfOk result (λ s. narrow_script (wide_script_of script.now) ≡ Some (script_of s)) }
    ensures err { IfErr result (IsTold (faults_stms (wide_script_of script.now))) }
{
    if let Some(fault) = first_fault(script) {
        return Err(told(fault));
    }
    let mut narrower = Narrower::new(alloc);
    match statements(&mut narrower, script.body.as_slice()) {
        Ok(body) => Ok(Script { body }),
        Err(Unnarrowed::LeftOut) => unreachable!(),
        Err(Unnarrowed::Memory) => Err(Narrowing::Memory),
    }
}
