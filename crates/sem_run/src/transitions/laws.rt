//! Laws of transitions, each the contract of a function that does nothing.

ghost use Rattle.std.specs.Prelude.{ℕ};
ghost use Rattle.sem_run.specs.run.Host.{Host};
ghost use Rattle.sem_run.specs.run.Machine.{Machine};
ghost use Rattle.sem_run.specs.transitions.Laws.{AnswersAreDone, AsksAreBegun};

/// A run does what a transition says: behind each answer in the making come what it prints and then
/// its reply, the value that it gives on, its request, or that the profile is left; and each ask is
/// begun as its transition has it.
#[tactic(auto, using(crate::proofs::transitions::RunLemmas::answers_done))]
pub fn a_run_does_transitions<S, N, V, W>()
    ensures answers { (machine : Machine S V) (host : Host N V W) (n : ℕ)
        → AnswersAreDone machine host n }
    ensures asks { (machine : Machine S V) (host : Host N V W) (n : ℕ)
        → AsksAreBegun machine host n }
{}
