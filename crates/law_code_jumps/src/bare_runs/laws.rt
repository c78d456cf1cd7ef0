//! The law of bare runs of code, the contract of a function that does nothing.

ghost use Rattle.law_code_jumps.specs.bare_runs.Laws.{BareFrontsAreFronts, BareRunsAreRuns};

/// Where a bare run of code objects comes to an outcome, so does the run of that code in which nobody
/// is asked and nothing is traced, whatever it is told of its slots: with the same writes, the same
/// number of acts and the same ending. What the one writes first the other writes first, also where
/// it comes to no outcome.
pub fn bare_runs_of_code_are_its_runs<N, V, W>()
    ensures runs { BareRunsAreRuns N V W }
    ensures fronts { BareFrontsAreFronts N V W }
{}
