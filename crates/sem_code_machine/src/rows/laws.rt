//! Laws of rows, each the contract of a function that does nothing.

ghost use Rattle.std.specs.Prelude.{ℕ};
ghost use Rattle.sem_code_machine.specs.rows.Runs.{RowsBegin};
ghost use Rattle.sem_run.specs.run.Host.{Host};
ghost use Rattle.sem_run.specs.run.Machine.{Machine};
ghost use Rattle.sem_code.specs.slots.Slots.{State};

/// A run over code does what rows say: at an instruction it moves to where the row leads, or it asks
/// what leads there once it is done (`a_run_does_transitions` of sem_run::transitions), with a mark or
/// without.
#[tactic(auto, using(crate::proofs::rows::RunLemmas::rows_begin))]
pub fn a_run_over_code_does_rows<N, V, W>()
    ensures { (machine : Machine (State V) V) (host : Host N V W) (n : ℕ)
        → RowsBegin machine host n }
{}
