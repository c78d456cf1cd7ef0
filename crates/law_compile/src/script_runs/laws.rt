//! The laws of the code of a script, each the contract of a function that does nothing.

ghost use Rattle.law_compile.specs.script_runs.Laws.{CodeIsNeverStuck, CodeIsStuckNowhereElse, CodeRunsAsItsScript};
ghost use Rattle.law_compile.specs.script_runs.Laws.{CodeWritesNothingElse, ScriptHasItsBareRuns};
ghost use Rattle.law_compile.specs.script_runs.ProgramLaws.{ProgramCodeIsNeverStuck, ProgramCodeWritesNothingElse};
ghost use Rattle.law_compile.specs.script_runs.ProgramLaws.{ProgramHasItsBareRuns};

/// In a script without a fault in its declarations, the code objects of its blocks have the bare
/// runs of the script: over each host and under each bound they come to an outcome exactly where
/// control of the script's trees does, and are never stuck if that isn't. Also where they come to no
/// outcome, that writes first what they write first.
pub fn the_code_of_a_script_has_its_bare_runs<N, V, W>()
    ensures outcomes { ScriptHasItsBareRuns N V W }
    ensures stuck { CodeIsStuckNowhereElse N V W }
    ensures writes { CodeWritesNothingElse N V W }
{}

/// So a bare run of the code is never stuck, where no block of the script gives a value on and the
/// host requests nothing but that blocks run.
pub fn the_code_of_a_script_is_never_stuck<N, V, W>()
    ensures { CodeIsNeverStuck N V W }
{}

/// Where a bare run of the code comes to an outcome, the run of the script in which nobody is
/// asked comes to one with the same writes, the same number of acts and the same ending.
pub fn the_code_of_a_script_runs_as_the_script<N, V, W>()
    ensures { CodeRunsAsItsScript N V W }
{}

/// The code of a script over a prelude, whose blocks are hidden, has the bare runs of both, and is
/// never stuck where no block of either gives a value on.
pub fn the_code_of_a_program_has_its_bare_runs<N, V, W>()
    ensures outcomes { ProgramHasItsBareRuns N V W }
    ensures writes { ProgramCodeWritesNothingElse N V W }
    ensures never_stuck { ProgramCodeIsNeverStuck N V W }
{}
