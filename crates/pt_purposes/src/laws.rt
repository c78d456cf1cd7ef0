//! Laws of activations that wait, each the contract of a function that does nothing.

ghost use Rattle.std.specs.Prelude.{List};
ghost use Rattle.pt_heap.specs.declared.value.Value.{Value};
ghost use Rattle.sem_run.specs.run.Machine.{Machine};
ghost use Rattle.sem_rows.specs.pt_host.World.{Program};
ghost use Rattle.pt_settrace.specs.Tracing.{Tracing};
ghost use Rattle.pt_purposes.specs.declared.opener.Opener.{Opener};
ghost use Rattle.pt_purposes.specs.Openers.{Ways};
ghost use Rattle.pt_purposes.specs.Laws.{OpenersAreSeen, PartsTell, ResultsGoOn};

/// Entries that stand for the activations of a run are seen there as their parts tell, and so the
/// machine tells by them whether another activation may open, whether a hook runs, and which
/// exception is active (Language Reference 4.1, 7.8).
pub fn openers_are_seen<S>()
    ensures seen { (program : Program) (machine : Machine S Value) (ways : Ways S) (h : Tracing)
        → OpenersAreSeen program machine ways h }
    ensures parts { (program : Program) (h : Tracing) (es : List Opener)
        → PartsTell program h es }
{}

/// What comes of a result leads the run on where the code goes on, if its answer does so there, with
/// the exception that ended an iterator: so nothing has to be known of the ask that waits but where
/// its answer leads.
pub fn results_go_on_where_answers_do<C, S>()
    ensures { (embed : C → S) → ResultsGoOn embed }
{}
