//! The law of raises of hooks, the contract of a function that does nothing.

ghost use Rattle.pt_heap.specs.declared.value.Value.{Value};
ghost use Rattle.sem_run.specs.run.Host.{Host};
ghost use Rattle.sem_run.specs.run.Machine.{Machine};
ghost use Rattle.pt_pendings.specs.Laws.{RaisesTakePlace};

/// What waits in the machine tells what a raise of a hook does in its place, in each run in which that
/// waits.
pub fn raises_of_hooks_take_the_place_of_what_waits<S, N, W>()
    ensures { (machine : Machine S Value) (host : Host N Value W) → RaisesTakePlace machine host }
{}
