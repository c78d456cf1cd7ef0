//! What the runs of code are.

ghost use Rattle.std.specs.Prelude.{ℕ};
ghost use Rattle.sem_run.specs.run.Host.{Host};
ghost use Rattle.sem_run.specs.run.Laws.{BeginAlike, HaveTheSameRuns, NeverHalts, session};
ghost use Rattle.sem_run.specs.run.Machine.{BlockId};
ghost use Rattle.sem_run.specs.run.Run.{Debugger};
ghost use Rattle.sem_run.specs.run.Source.{Source};
ghost use Rattle.sem_run.specs.run.Source as script;
ghost use Rattle.law_code_runs.specs.code_run.CodeMachine.{CodeSource};
ghost use Rattle.law_code_runs.specs.code_run.CodeMachine as coded;
ghost use Rattle.law_code_runs.specs.code_run.Law.{IsCodeOf};
ghost use Rattle.law_code_runs.specs.code_run.Parts.{HasClosedParts, KnowsActs};

/// Where each block of a script has its code, that code has the closed parts of the block, and the
/// machine knows its acts, the code has the runs of the script: for each host, debugger and bound it
/// prints the same, tells the same events and acts, answers jumps alike, and ends in the same way.
pub fn code_runs_as_its_script<D, N, V, W>()
    ensures { (source : Source V) (code : CodeSource V) → IsCodeOf source code
        → ((b : BlockId) → HasClosedParts source code b)
        → ((b : BlockId) → KnowsActs source code b)
        → (host : Host N V W) (ask : Debugger D N V W) (n : ℕ) (block : BlockId) (names : N)
        (world : W) (d : D)
        → HaveTheSameRuns (script.machine source) (coded.machine code) host ask n block names world d }
{}

/// Then it also begins as the script does, whether or not they come to an outcome.
pub fn code_begins_as_its_script<D, N, V, W>()
    ensures { (source : Source V) (code : CodeSource V) → IsCodeOf source code
        → ((b : BlockId) → HasClosedParts source code b)
        → ((b : BlockId) → KnowsActs source code b)
        → (host : Host N V W) (ask : Debugger D N V W) (n : ℕ) (block : BlockId) (names : N)
        (world : W) (d : D)
        → BeginAlike (script.machine source) (coded.machine code) host ask n block names world d }
{}

/// And its run never halts unfinished.
pub fn code_of_a_script_never_halts<D, N, V, W>()
    ensures { (source : Source V) (code : CodeSource V) → IsCodeOf source code
        → ((b : BlockId) → HasClosedParts source code b)
        → ((b : BlockId) → KnowsActs source code b)
        → (host : Host N V W) (ask : Debugger D N V W) (n : ℕ) (block : BlockId) (names : N)
        (world : W) (d : D)
        → NeverHalts (coded.machine code) host ask n (session (coded.machine code) block names world d) }
{}
