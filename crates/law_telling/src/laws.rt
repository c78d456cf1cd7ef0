//! The law of what is told where nothing hooks in, the contract of a function that does nothing.

ghost use Rattle.std.specs.Prelude.{ℕ};
ghost use Rattle.sem_run.specs.run.Host.{Host};
ghost use Rattle.sem_run.specs.run.Machine.{Machine};
ghost use Rattle.sem_run.specs.run.Run.{Debugger};
ghost use Rattle.sem_run.specs.run.State.{State};
ghost use Rattle.law_telling.specs.Laws.{PrintsNothing, ReachesWhatWaits};

/// Where no trace function is set, no tool wants an event and the debugger minds none, a run in which
/// this is to be told comes to what waits for it, and gives the events with their lines for the log
/// alone; nothing of a hidden block, and while a hook runs. Nothing else changes but the entry that an
/// exception gets in its traceback (Library Reference, `sys.settrace`, `sys.monitoring`).
#[tactic(auto, using(crate::proofs::Telling::reaches_what_waits, crate::proofs::Telling::prints_nothing))]
pub fn what_is_told_where_nothing_hooks_in_is_logged<D, S, N, V, W>()
    ensures reaches { (machine : Machine S V) (host : Host N V W) (ask : Debugger D N V W) (n : ℕ)
        (d : D) (s : State S N V W) → ReachesWhatWaits machine host ask n d s }
    ensures prints { (machine : Machine S V) (host : Host N V W) (s : State S N V W)
        → PrintsNothing machine host s }
{}
