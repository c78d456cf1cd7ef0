//! Laws of results that go to what waits, each the contract of a function that does nothing.

ghost use Rattle.std.specs.Prelude.{ℕ, Bool};
ghost use Rattle.sem_run.specs.run.Host.{Host};
ghost use Rattle.sem_run.specs.run.Machine.{Machine};
ghost use Rattle.sem_run.specs.run.Outcome.{Question};
ghost use Rattle.law_steps.specs.returns.Laws.{EndsToCall, GivesOnToCall, ReturnsToCall, ReturnsToHook};

/// What a block gives is the reply to the call that waits for it, and an exception that leaves it
/// arises there; a hook's function answers so or raises. What a generator gives on, and what it ends
/// with, is the reply to the call by which it goes on; it keeps its activation as it is where it gives
/// on, and is finished where it ends (Language Reference 6.2.9, 6.3.4).
pub fn results_go_to_what_waits<S, N, V, W>()
    ensures call { (machine : Machine S V) (host : Host N V W) (minds : Question V → Bool) (n : ℕ)
        → ReturnsToCall machine host minds n }
    ensures hook { (machine : Machine S V) (host : Host N V W) (minds : Question V → Bool) (n : ℕ)
        → ReturnsToHook machine host minds n }
    ensures gives_on { (machine : Machine S V) (host : Host N V W) (minds : Question V → Bool)
        (n : ℕ) → GivesOnToCall machine host minds n }
    ensures ends { (machine : Machine S V) (host : Host N V W) (minds : Question V → Bool) (n : ℕ)
        → EndsToCall machine host minds n }
{}
