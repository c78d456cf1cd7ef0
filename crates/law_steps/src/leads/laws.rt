//! Laws of where asks lead, each the contract of a function that does nothing.

ghost use Rattle.std.specs.Prelude.{ℕ, Bool};
ghost use Rattle.sem_run.specs.run.Host.{Host};
ghost use Rattle.sem_run.specs.run.Machine.{Machine};
ghost use Rattle.sem_run.specs.run.Outcome.{Question};
ghost use Rattle.law_steps.specs.leads.Laws.{AnswersLead, AsksLead};

/// An ask leads a run to the successor that its answer has, and so does the rest of an answer behind
/// what it requested (Language Reference 4.1, 6.2.9).
pub fn asks_lead_to_their_successors<S, N, V, W>()
    ensures answers { (machine : Machine S V) (host : Host N V W) (minds : Question V → Bool)
        (n : ℕ) → AnswersLead machine host minds n }
    ensures asks { (machine : Machine S V) (host : Host N V W) (minds : Question V → Bool) (n : ℕ)
        → AsksLead machine host minds n }
{}
