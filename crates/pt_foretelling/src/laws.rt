//! The law of what is told before acts, the contract of a function that does nothing.
ghost use Rattle.pt_host.specs.World.{Program};
ghost use Rattle.pt_foretelling.specs.Laws.{AreForetold};

/// What is told before an act is that which a run tells there, whatever its machine tells of where code
/// leads (Library Reference, `sys.monitoring`; Language Reference 6.3.4, 7.9, 7.10).
pub fn acts_are_foretold_as_in_a_run()
    ensures { (program : Program) → AreForetold program }
{}
