//! The law of what is seen of open activations, the contract of a function that does nothing.

ghost use Rattle.sem_run.specs.run.Machine.{Machine};
ghost use Rattle.law_steps.specs.waiting.Laws.{SeenTells};

/// The frames of open activations, the exceptions that are active in them and which wait for hooks
/// tell whether a run tells anything, whether another activation may open, where something is asked,
/// and which frames and line are visible; nothing else of what waits does.
pub fn what_waits_is_seen<S, N, V, W>()
    ensures { (machine : Machine S V) → SeenTells N W machine }
{}
