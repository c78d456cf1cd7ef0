//! Laws of the runs of scripts and code files, each the contract of a function that does nothing.

ghost use Rattle.law_program.specs.program_runs.Laws.{CodeFileFrontsAreFronts, CodeFileNeverHalts, CodeFileRunsAreRuns, CodeOfScriptHasItsRun, ScriptFrontsAreFronts, ScriptRunsAreRuns};

/// The outcome that the program tells of the bare run of a script over a prelude is that of its run,
/// in which nobody is asked and nothing is traced; the code of both, which is told of its slots,
/// comes to it too. What it writes first, also where it comes to none, the run writes first.
pub fn bare_runs_of_scripts_are_runs()
    ensures runs { ScriptRunsAreRuns }
    ensures fronts { ScriptFrontsAreFronts }
    ensures code { CodeOfScriptHasItsRun }
{}

/// So it is with a code file: its outcome is that of the run of its code objects.
pub fn bare_runs_of_code_files_are_runs()
    ensures runs { CodeFileRunsAreRuns }
    ensures fronts { CodeFileFrontsAreFronts }
{}

/// The run of a code file from anyone whose blocks fit, over a prelude's code that is such a one too,
/// never halts unfinished: over each host, with its hooks, tools and generators, and under each
/// debugger, wherever that jumps.
pub fn verified_code_files_never_halt<D, N, W>()
    ensures { CodeFileNeverHalts D N W }
{}
