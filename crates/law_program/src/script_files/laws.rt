//! Laws of the code file of a supported script, each the contract of a function that does nothing.

ghost use Rattle.law_program.specs.script_files.Laws.{
  CodeHasOneProgram,
  CodeIsSupported,
  CodeRunsAsScript,
  ScriptRunsAsCode,
  ScriptWritesAsCode,
  ShallowCodeIsRunnable,
};

/// The code of a supported script that has a file is supported. It fits, and so it is run, unless a
/// place of it gets more than 16,777,216 slots.
pub fn code_of_a_script_is_supported()
    ensures supported { CodeIsSupported }
    ensures runnable { ShallowCodeIsRunnable }
{}

/// Where a run of a supported script over a prelude that is one too comes to an outcome by some work
/// of their code, under a bound on acts, the prelude's code and the code that is read from the
/// script's file are runnable, and the run of both comes to this outcome by this work: a host knows
/// the same of them (Library Reference, "inspect": code objects).
pub fn code_of_a_script_runs_as_the_script()
    ensures program { CodeHasOneProgram }
    ensures runs { CodeRunsAsScript }
{}

/// And where the code that is read comes to an outcome over the prelude's, so does the script over
/// the prelude, by the same work. What it writes first is what the script writes first, also where
/// it comes to none.
pub fn the_script_runs_as_its_code()
    ensures runs { ScriptRunsAsCode }
    ensures writes { ScriptWritesAsCode }
{}
