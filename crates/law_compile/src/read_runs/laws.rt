//! The law of scripts that are read, the contract of a function that does nothing.

ghost use Rattle.law_compile.specs.read_runs.Laws.{CodeOfReadScriptIsNeverStuck, ReadScriptHasItsBareRuns};
ghost use Rattle.law_compile.specs.read_runs.Laws.{ReadScriptRunsAsItsCode, ReadScriptWritesAsItsCode};

/// A script that is read, without a fault in its declarations, has the bare runs of the code objects
/// of its code, over each host and under each bound: where they come to an outcome, the run of the
/// script in which nobody is asked comes to one with the same writes, the same number of acts and the
/// same ending. Also where they come to no outcome, the script writes first what they write first.
/// Where no block gives a value on, they are never stuck over a host that requests nothing but that
/// blocks run.
pub fn a_script_that_is_read_runs_as_its_code<N, V, W>()
    ensures bare { ReadScriptHasItsBareRuns N V W }
    ensures runs { ReadScriptRunsAsItsCode N V W }
    ensures writes { ReadScriptWritesAsItsCode N V W }
    ensures stuck { CodeOfReadScriptIsNeverStuck N V W }
{}
