//! Tests of what the language keeps of a wide statement (Language Reference 8.4, 8.8).

ghost use Rattle.std.specs.Prelude.{◌≡◌, ◌<◌, ◌≤◌, length, IfErr, IfOk, is_err};
ghost use Rattle.pt_refine_expr.specs.StatementFaults.{is_generator as is_generator_of};
ghost use Rattle.pt_wide.specs.Fold.{exp_of};

use pt_refine_expr::{Unnarrowed, is_generator};
use pt_wide::{WideArgument, WideExpr};

/// One argument at most.
pub fn only_one(values: &[WideArgument]) -> Result<(), Unnarrowed>
    ensures ok { IfOk result (λ _. length values.now ≤ 1) }
    ensures err { IfErr result (λ _. 1 < length values.now) }
{
    if values.len() > 1 {
        Err(Unnarrowed::LeftOut)
    } else {
        Ok(())
    }
}

/// An argument that isn't a generator expression without brackets of its own.
pub fn no_generator(e: &WideExpr) -> Result<(), Unnarrowed>
    ensures { is_generator_of (exp_of e.now) ≡ is_err result }
{
    if is_generator(e) {
        Err(Unnarrowed::LeftOut)
    } else {
        Ok(())
    }
}

/// A base without a comma behind it.
pub fn without_comma(trailing_comma: bool) -> Result<(), Unnarrowed>
    ensures { trailing_comma ≡ is_err result }
{
    if trailing_comma {
        Err(Unnarrowed::LeftOut)
    } else {
        Ok(())
    }
}

/// `except` without a `*`.
pub fn without_star(star: bool) -> Result<(), Unnarrowed>
    ensures { star ≡ is_err result }
{
    if star {
        Err(Unnarrowed::LeftOut)
    } else {
        Ok(())
    }
}
