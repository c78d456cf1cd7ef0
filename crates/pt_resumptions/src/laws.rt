//! The law of generators that go on, the contract of a function that does nothing.

ghost use Rattle.pt_heap.specs.declared.value.Value.{Value};
ghost use Rattle.sem_run.specs.run.Host.{Host};
ghost use Rattle.sem_run.specs.run.Machine.{Machine};
ghost use Rattle.pt_resumptions.specs.Laws.{GoesOnByState};

/// A generator goes on in a run as its state tells (Language Reference 6.2.9.1).
pub fn generators_go_on_by_their_state<S, N, W>()
    ensures { (machine : Machine S Value) (host : Host N Value W) → GoesOnByState machine host }
{}
