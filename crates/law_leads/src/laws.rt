//! The law of where asks lead and what is told there, the contract of a function that does nothing.

ghost use Rattle.std.specs.Prelude.{ℕ, Bool, Option};
ghost use Rattle.sem_run.specs.run.Host.{Host};
ghost use Rattle.sem_run.specs.run.Machine.{Machine};
ghost use Rattle.sem_run.specs.run.Outcome.{Question};
ghost use Rattle.law_leads.specs.Laws.{AnswersLead, AsksLead};

/// An ask leads a run to the successor that its answer has, and so does the rest of an answer behind
/// what it requested. By the answer nothing is told of its reply but the exception that ended an
/// iterator, which is one of those by which answers end it, and behind a request the one by which what
/// was requested was left. The states in which its replies go on may be parts of those of the
/// machine (Language Reference 4.1, 6.2.9, 8.3).
pub fn asks_lead_and_tell_what_ended_iterators<C, S, N, V, W>()
    ensures answers { (machine : Machine S V) (host : Host N V W) (minds : Question V → Bool)
        (n : ℕ) (ends : Option V → Bool) (embed : C → S)
        → AnswersLead machine host minds n ends embed }
    ensures asks { (machine : Machine S V) (host : Host N V W) (minds : Question V → Bool) (n : ℕ)
        (ends : Option V → Bool) (embed : C → S)
        → AsksLead machine host minds n ends embed }
{}
