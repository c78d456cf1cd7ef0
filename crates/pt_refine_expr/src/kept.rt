//! Tests of what the language keeps of a wide tree (Language Reference 7.2, 8.7).

ghost use Rattle.std.specs.Prelude.{◌≡◌, ℕ, [], None, IfErr, IfOk, Option, is_ok};
ghost use Rattle.pt_refine_expr.specs.Narrow.{if_here, narrow_params};
ghost use Rattle.pt_refine_expr.specs.Narrowed.{wide_exps};
ghost use Rattle.pt_refine_expr.specs.Targets.{are_targets as are_targets_of, is_inside_target as is_inside_target_of};
ghost use Rattle.pt_refine_expr.specs.declared.stars.Stars.TheVariants.{Here};
ghost use Rattle.pt_tree.specs.Syntax.{Tgt};
ghost use Rattle.pt_wide.specs.Fold.{exp_of, parameters_of};
ghost use Rattle.pt_wide.specs.declared.expression.WideParameters.{out-WideParameters};

use crate::forms::{are_targets, is_inside_target};
use crate::stars::Stars;
use crate::unnarrowed::Unnarrowed;
use pt_wide::{WideExpr, WideParameters};

/// Brackets that hold targets, one at least.
pub fn only_targets(items: &[WideExpr]) -> Result<(), Unnarrowed>
    ensures { are_targets_of (wide_exps items.now) ≡ is_ok result }
{
    if are_targets(items) {
        Ok(())
    } else {
        Err(Unnarrowed::LeftOut)
    }
}

/// Parentheses that hold a target.
pub fn only_inside(inside: &WideExpr) -> Result<(), Unnarrowed>
    ensures { is_inside_target_of (exp_of inside.now) ≡ is_ok result }
{
    if is_inside_target(inside) {
        Ok(())
    } else {
        Err(Unnarrowed::LeftOut)
    }
}

/// A place at which a star may stand.
pub fn only_here(stars: Stars) -> Result<(), Unnarrowed>
    ensures ok { IfOk result (λ _. stars ≡ Here) }
    ensures err { IfErr result (λ _. (t : Option Tgt) → if_here stars t ≡ None) }
{
    match stars {
        Stars::Here => Ok(()),
        Stars::Never => Err(Unnarrowed::LeftOut),
        Stars::Inside => Err(Unnarrowed::LeftOut),
    }
}

/// Parameters without a `/`, before which there would be others.
pub fn without_slash(names: &WideParameters) -> Result<(), Unnarrowed>
    ensures ok { IfOk result (λ _. ((out-WideParameters names.now).positional_only ≡ []) × ((out-WideParameters names.now).slash ≡ None)) }
    ensures err { IfErr result (λ _. (before : ℕ) → narrow_params before (parameters_of names.now) ≡ None) }
{
    match names.slash {
        Some(_) => Err(Unnarrowed::LeftOut),
        None => {
            if names.positional_only.is_empty() {
                Ok(())
            } else {
                Err(Unnarrowed::LeftOut)
            }
        }
    }
}
