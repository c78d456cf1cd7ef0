//! Laws of the run of a code, each the contract of a function that does nothing.

ghost use Rattle.law_program.specs.code_ends.Laws.{CodeRunsToOneOutcome, OutcomeBeginsWithFirstWrites};

/// Under a bound on acts the run of a code that has a file and whose blocks fit, over a prelude that
/// is such a code too, comes to one outcome at most, by one work. Its code objects may know other
/// numbers of slots where no way comes, and leave the profile by other operations: no run tells them
/// apart (Library Reference, "dis").
pub fn a_code_runs_to_one_outcome()
    ensures { CodeRunsToOneOutcome }
{}

/// Where the run of such a code comes to an outcome, all that it writes begins with what the run of
/// the code writes first.
pub fn an_outcome_begins_with_what_its_code_writes_first()
    ensures { OutcomeBeginsWithFirstWrites }
{}
