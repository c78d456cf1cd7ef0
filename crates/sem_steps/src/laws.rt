//! Laws of several steps at once, each the contract of a function that does nothing.

ghost use Rattle.std.specs.Prelude.{ℕ, Bool};
ghost use Rattle.sem_run.specs.run.Host.{Host};
ghost use Rattle.sem_run.specs.run.Machine.{Machine};
ghost use Rattle.sem_run.specs.run.Outcome.{Question};
ghost use Rattle.sem_run.specs.run.Run.{Debugger};
ghost use Rattle.sem_steps.specs.Laws.{AsksInOrder, OneStepGoes, StepsAreMoves, StepsJoin};

/// Steps are moves of a run with each debugger that says nothing to what it doesn't mind. A step that
/// goes on is one of them, and those that come behind others are steps with them.
pub fn steps_are_moves_of_a_run<D, S, N, V, W>()
    ensures moves { (machine : Machine S V) (host : Host N V W) (minds : Question V → Bool) (n : ℕ)
        (ask : Debugger D N V W) (d : D) → StepsAreMoves machine host minds n ask d }
    ensures join { (machine : Machine S V) (host : Host N V W) (minds : Question V → Bool) (n : ℕ)
        → StepsJoin machine host minds n }
    ensures one { (machine : Machine S V) (host : Host N V W) (minds : Question V → Bool) (n : ℕ)
        → OneStepGoes machine host minds n }
{}

/// At an event that is told, those who are still to be asked are asked in their order: the log has
/// its line, a debugger is consulted where it minds the event, and a tool's or the trace function is
/// called where it is due. Behind the last one, what else is told there is next (Library Reference,
/// `sys.settrace`, `sys.monitoring`).
pub fn events_are_told_in_order<S, N, V, W>()
    ensures { (machine : Machine S V) (host : Host N V W) (minds : Question V → Bool) (n : ℕ)
        → AsksInOrder machine host minds n }
{}
