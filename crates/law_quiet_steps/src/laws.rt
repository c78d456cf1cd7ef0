//! The law of steps where nothing hooks in, the contract of a function that does nothing.

ghost use Rattle.std.specs.Prelude.{ℕ, Bool};
ghost use Rattle.law_quiet_steps.specs.Laws.{TellsQuietly};
ghost use Rattle.law_quiet_steps.specs.Turns.{ActsAreDone, AsksAreDone, BlocksBegin, BlocksEnd, NotesLeadOn, RepliesLeadOn};
ghost use Rattle.sem_run.specs.run.Host.{Host};
ghost use Rattle.sem_run.specs.run.Machine.{Machine};
ghost use Rattle.sem_run.specs.run.Outcome.{Question};

/// Where no trace function is set, no tool wants an event and no debugger minds one, what is told
/// writes lines of the log alone, and then what waits goes on.
pub fn quiet_steps_write_lines_of_the_log<S, N, V, W>()
    ensures { (machine : Machine S V) (host : Host N V W) (minds : Question V → Bool) (n : ℕ)
        → TellsQuietly machine host minds n }
{}

/// So a turn where nothing hooks in comes to what its ask is answered, its reply or note leads on, and
/// a block begins or is over: an act takes its unit, and all that is told of it writes lines of the
/// log alone (Language Reference 4.1; PEP 626).
pub fn quiet_turns_lead_on<S, N, V, W>()
    ensures acts { (machine : Machine S V) (host : Host N V W) (minds : Question V → Bool) (n : ℕ)
        → ActsAreDone machine host minds n }
    ensures asks { (machine : Machine S V) (host : Host N V W) (minds : Question V → Bool) (n : ℕ)
        → AsksAreDone machine host minds n }
    ensures replies { (machine : Machine S V) (host : Host N V W) (minds : Question V → Bool) (n : ℕ)
        → RepliesLeadOn machine host minds n }
    ensures notes { (machine : Machine S V) (host : Host N V W) (minds : Question V → Bool) (n : ℕ)
        → NotesLeadOn machine host minds n }
    ensures begins { (machine : Machine S V) (host : Host N V W) (minds : Question V → Bool) (n : ℕ)
        → BlocksBegin machine host minds n }
    ensures ends { (machine : Machine S V) (host : Host N V W) (minds : Question V → Bool) (n : ℕ)
        → BlocksEnd machine host minds n }
{}
