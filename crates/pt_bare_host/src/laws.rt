//! A law of the host, the contract of a function that does nothing.

ghost use Rattle.pt_bare_runs.specs.Laws.{OpensOnly};
ghost use Rattle.pt_host.specs.HeapHost.{heap_host};
ghost use Rattle.pt_host.specs.World.{Program};

/// The host requests nothing but that blocks run, whatever it is asked, also behind what it requests.
#[tactic(auto, using(crate::proofs::BlocksOnly::opens_only))]
pub fn the_host_only_has_blocks_run()
    ensures { (program : Program) → OpensOnly (heap_host program) }
{}
