//! Laws of verified code, each the contract of a function that does nothing.
ghost use Rattle.pt_code.specs.declared.Code.{Code};
ghost use Rattle.pt_verify.specs.Laws.{FittingIsUnrefused};

/// Code that has a file and whose blocks all fit isn't refused, but for want of memory. So `verify`
/// gives just such code back where memory suffices.
pub fn code_that_fits_is_verified()
    ensures { (c : Code) → FittingIsUnrefused c }
{}
