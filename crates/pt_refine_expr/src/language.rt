//! The expression of the language that an expression of the wide grammar is, or what the language
//! leaves out of it (Language Reference 6).

ghost use Rattle.std.specs.Prelude.{◌≡◌, ◌∷◌, Some, IfOk, IfErr};
ghost use Rattle.pt_refine_expr.specs.Faults.{faults_exp};
ghost use Rattle.pt_refine_expr.specs.First.{fault_of};
ghost use Rattle.pt_refine_expr.specs.Narrow.{narrow_exp};
ghost use Rattle.pt_refine_expr.specs.Told.{IsTold};
ghost use Rattle.pt_tree.specs.Fold.{exp_of};
ghost use Rattle.pt_wide.specs.Fold.{exp_of as wide_exp_of};

use crate::expression_trees::expression;
use crate::fault::Fault;
use crate::faults::first_fault_of_expr;
use crate::narrower::Narrower;
use crate::narrowing::Narrowing;
use crate::unnarrowed::Unnarrowed;
use pt_tree::Expr;
use pt_wide::WideExpr;
use std::alloc::Global;

/// What is told of a fault that stands before all others.
pub fn told(fault: Fault) -> Narrowing
    ensures { (others : _) → IsTold (fault_of fault ∷ others) result }
{
    match fault {
        Fault::BadTarget { line } => Narrowing::BadTarget { line },
        Fault::Excluded { line } => Narrowing::Excluded { line },
    }
}

/// The expression of the language that an expression of the wide grammar is, or what the language
/// leaves out (Language Reference 6).
pub fn narrow_expr(alloc: Global, e: &WideExpr) -> Result<Expr, Narrowing>
    ensures ok { IfOk result (λ t. narrow_exp 1 (wide_exp_of e.now) ≡ Some (exp_of t)) }
    ensures err { IfErr result (IsTold (faults_exp (wide_exp_of e.now))) }
{
    if let Some(fault) = first_fault_of_expr(e) {
        return Err(told(fault));
    }
    let mut narrower = Narrower::new(alloc);
    match expression(&mut narrower, e) {
        Ok(tree) => Ok(tree),
        Err(Unnarrowed::LeftOut) => unreachable!(),
        Err(Unnarrowed::Memory) => Err(Narrowing::Memory),
    }
}
