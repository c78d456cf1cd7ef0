//! Laws of names in runs, each the contract of a function that does nothing.

ghost use Rattle.law_frames.specs.Laws.{RunsBeginWithTheirNames, RunsHaveTheirNames};

/// In a run of code whose operands name what their blocks have, the newest activation and each that
/// waits have the names of their blocks, and each function takes along a cell for each free name of
/// its block, wherever strides lead (Language Reference 4.2.2, 8.7).
pub fn runs_have_their_names()
    ensures { RunsHaveTheirNames }
{}

/// So it is where a run begins with the names of its module, if that has no free names.
pub fn runs_begin_with_their_names()
    ensures { RunsBeginWithTheirNames }
{}
