//! The run of code from its start to its end.

ghost use Rattle.std.specs.Prelude.{◌≡◌, ◌≤◌, ◌∷◌, [], Err, IfOk, OnOk, IfErr, codes};
ghost use Rattle.pt_base.specs.Faults.{Rose};
ghost use Rattle.pt_transfers.specs.pt_machine_state.Blocks.{block_at};
ghost use Rattle.pt_transfers.specs.pt_machine_state.Changes.{events_of};
ghost use Rattle.pt_transfers.specs.pt_machine_state.Views.{block_of};
ghost use Rattle.pt_transfers.specs.pt_machine_state.Writing.{kept, pieces_of};
ghost use Rattle.pt_sinks.specs.Writing.{Took, TookFront};
ghost use Rattle.pt_sinks.specs.declared.writing.Out.TheVariants as stream;
ghost use Rattle.pt_runner.specs.Runs.{BrokeOff, Finished, IsReady, ModuleRun};

use crate::advance::advance;
use crate::counting::{next_over, stopped_spent};
use crate::draining::drain;
use crate::ending::{Ended, Totals};
use pt_base::Sink;
use pt_machine::CodeTables;
use pt_sinks::WriteErr;
use pt_transfers::{Machine, Writes, tell};
use std::alloc::Global;

/// Tells that the module starts.
///
/// # Errors
///
/// Failed where a sink's count of faults rose, and Memory.
fn begin<O: Sink, L: Sink>(
    tables: &CodeTables,
    machine: &Machine,
    writes: &mut Writes,
    out: &mut O,
    log: &mut L,
) -> Result<(), WriteErr>
    requires empty { pieces_of writes.old ≡ [] }
    ensures ok { OnOk result (Took (O.taken out.old) (O.taken out.new) (L.taken log.old)
        (L.taken log.new) (kept writes.old.events (events_of (codes "call") []
        (block_at tables.now.blocks (block_of machine.now.here)) machine.now))) }
    ensures emptied { OnOk result (pieces_of writes.new ≡ []) }
    ensures events { OnOk result (writes.new.events ≡ writes.old.events) }
    ensures err { IfErr result (λ why. TookFront (O.taken out.old) (O.taken out.new)
        (L.taken log.old) (L.taken log.new) why (kept writes.old.events (events_of (codes "call") []
        (block_at tables.now.blocks (block_of machine.now.here)) machine.now))) }
    ensures out_failed { result ≡ Err (WriteErr.Failed stream.Out)
        → Rose (O.faults out.old) (O.faults out.new) × (O.faults out.new ≤ O.most out.new) }
    ensures log_failed { result ≡ Err (WriteErr.Failed stream.Log)
        → Rose (L.faults log.old) (L.faults log.new) × (L.faults log.new ≤ L.most log.new) }
    ensures most { (O.most out.new ≡ O.most out.old) × (L.most log.new ≡ L.most log.old) }
    ensures later { (O.faults out.old ≤ O.faults out.new) × (L.faults log.old ≤ L.faults log.new) }
{
    let block = tables.blocks.at(machine.here.block, machine.here.hidden);
    tell(machine, block, "call", "", writes)?;
    drain(writes, out, log)
}

/// Runs code that is ready from its start, under a bound on acts. What it prints goes to out, and
/// with `events` the lines of events to the log, each in one call. Each of the two takes its own in
/// the order of the run; how they lie beside each other is told only where a write breaks off.
///
/// Where it isn't broken off, it ends as the bare run of the code does under this bound, it has
/// taken as many units, instructions and slots, and all that the run writes was written. The count
/// of instructions stands still at the greatest u64.
///
/// # Errors
///
/// Failed where a sink's count of faults rose, and Memory: for want of it, or where as many strides
/// as the greatest u64 says were done. A front of what the run writes is then written.
pub fn run<O: Sink, L: Sink>(
    alloc: Global,
    tables: &CodeTables,
    machine: &mut Machine,
    bound: u64,
    events: bool,
    out: &mut O,
    log: &mut L,
) -> Result<Ended, WriteErr>
    requires ready { (r : ModuleRun) × IsReady tables.now bound machine.old r }
    ensures ok { IfOk result (λ ended. (r : ModuleRun) → IsReady tables.now bound machine.old r
        → Finished r bound events ended (O.taken out.old) (O.taken out.new) (L.taken log.old)
        (L.taken log.new)) }
    ensures err { IfErr result (λ why. (r : ModuleRun) → IsReady tables.now bound machine.old r
        → BrokeOff r bound events (O.taken out.old) (O.taken out.new) (L.taken log.old)
        (L.taken log.new) why) }
    ensures out_failed { result ≡ Err (WriteErr.Failed stream.Out)
        → Rose (O.faults out.old) (O.faults out.new) × (O.faults out.new ≤ O.most out.new) }
    ensures log_failed { result ≡ Err (WriteErr.Failed stream.Log)
        → Rose (L.faults log.old) (L.faults log.new) × (L.faults log.new ≤ L.most log.new) }
    ensures most { (O.most out.new ≡ O.most out.old) × (L.most log.new ≡ L.most log.old) }
    ensures later { (O.faults out.old ≤ O.faults out.new) × (L.faults log.old ≤ L.faults log.new) }
{
    let mut writes = Writes {
        alloc,
        items: Vec::new(alloc),
        events,
    };
    begin(tables, machine, &mut writes, out, log)?;
    let mut totals = Totals {
        acts: 0,
        instructions: 0,
        depth: 0,
    };
    for _stride in 0..u64::MAX {
        let next = next_over(machine);
        let stop = advance(tables, machine, &mut writes, bound, out, log)?;
        totals.count(next, stopped_spent(&stop), machine.units);
        if let Some(end) = stop {
            return Ok(Ended { end, totals });
        }
    }
    Err(WriteErr::Memory)
}
