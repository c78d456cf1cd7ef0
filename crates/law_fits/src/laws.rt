//! The law of runs of code that fits, the contract of a function that does nothing.

ghost use Rattle.law_fits.specs.Laws.{CodeThatFitsRunsOn};

/// A bare run of code whose blocks fit is never stuck, whatever the host replies, if it requests
/// nothing but that blocks run and no block gives a value on: each activation, those that wait too,
/// has the slots of its place (Library Reference, "dis"; Language Reference 6.2.9).
pub fn code_that_fits_runs_on<V, N, W>()
    ensures { CodeThatFitsRunsOn V N W }
{}
