//! The law of steps and advice, the contract of a function that does nothing.

ghost use Rattle.std.specs.Prelude.{ℕ, Bool};
ghost use Rattle.sem_run.specs.run.Host.{Host};
ghost use Rattle.sem_run.specs.run.Machine.{Machine};
ghost use Rattle.sem_run.specs.run.Outcome.{Question};
ghost use Rattle.sem_run.specs.run.Run.{Debugger};
ghost use Rattle.law_steps.specs.sessions.Laws.{EndsByAdvice, EndsTheRun, GoesOnByAdvice};

/// Steps behind which a run ends are its run, whoever debugs it and minds no more than these. Behind a
/// question that is minded it goes on as the debugger advises, or ends, with the debugger's reply.
pub fn steps_and_advice_are_the_run<D, S, N, V, W>()
    ensures ends { (machine : Machine S V) (host : Host N V W) (minds : Question V → Bool) (n : ℕ)
        (ask : Debugger D N V W) → EndsTheRun machine host minds n ask }
    ensures goes { (machine : Machine S V) (host : Host N V W) (minds : Question V → Bool) (n : ℕ)
        (ask : Debugger D N V W) → GoesOnByAdvice machine host minds n ask }
    ensures quits { (machine : Machine S V) (host : Host N V W) (minds : Question V → Bool) (n : ℕ)
        (ask : Debugger D N V W) → EndsByAdvice machine host minds n ask }
{}
