//! One stride of a run, with what it writes.

ghost use Rattle.std.specs.Prelude.{◌≡◌, ◌≤◌, ◌∷◌, [], Err, IfOk, OnOk, IfErr};
ghost use Rattle.pt_base.specs.Faults.{Rose};
ghost use Rattle.pt_transfers.specs.pt_machine_state.Writing.{pieces_of};
ghost use Rattle.pt_sinks.specs.declared.writing.Out.TheVariants as stream;
ghost use Rattle.pt_runner.specs.Advancing.{Advanced, BrokeOffAt, Point, StandsAt};
ghost use Rattle.pt_runner.specs.Ends.{end_of, table_name};

use crate::draining::drain;
use crate::ending::RunEnd;
use crate::leaving::leaving;
use pt_base::{Memory, Sink};
use pt_machine::{CodeTables, fast_stride, stride};
use pt_sinks::WriteErr;
use pt_transfers::{Machine, MachineEnd, Stride, Writes};

/// The end of a run that the machine came to.
fn end_of(tables: &CodeTables, end: MachineEnd, machine: &Machine) -> Result<RunEnd, Memory>
    ensures { IfOk result (λ e. e ≡ end_of (table_name tables.now) end machine.now) }
{
    match end {
        MachineEnd::Done => Ok(RunEnd::Done),
        MachineEnd::Left { exception, line } => {
            leaving(machine.alloc, &machine.heap, tables, exception, line)
        }
        MachineEnd::Spent => Ok(RunEnd::Spent),
        MachineEnd::Outside { what, line } => Ok(RunEnd::Outside { what, line }),
    }
}

/// Does a stride in full, and writes what it has to write.
///
/// # Errors
///
/// Failed where a sink's count of faults rose, and Memory. A front of what the stride writes is
/// then written.
fn advance_in_full<O: Sink, L: Sink>(
    tables: &CodeTables,
    machine: &mut Machine,
    writes: &mut Writes,
    bound: u64,
    out: &mut O,
    log: &mut L,
) -> Result<Option<RunEnd>, WriteErr>
    requires stands { (p : Point) × StandsAt tables.now bound machine.old p }
    requires empty { pieces_of writes.old ≡ [] }
    ensures ok { IfOk result (λ stop. (p : Point) → StandsAt tables.now bound machine.old p
        → Advanced bound writes.old.events p machine.old machine.new (O.taken out.old)
        (O.taken out.new) (L.taken log.old) (L.taken log.new) stop) }
    ensures emptied { OnOk result (pieces_of writes.new ≡ []) }
    ensures events { OnOk result (writes.new.events ≡ writes.old.events) }
    ensures err { IfErr result (λ why. (p : Point) → StandsAt tables.now bound machine.old p
        → BrokeOffAt bound writes.old.events p machine.old (O.taken out.old) (O.taken out.new)
        (L.taken log.old) (L.taken log.new) why) }
    ensures out_failed { result ≡ Err (WriteErr.Failed stream.Out)
        → Rose (O.faults out.old) (O.faults out.new) × (O.faults out.new ≤ O.most out.new) }
    ensures log_failed { result ≡ Err (WriteErr.Failed stream.Log)
        → Rose (L.faults log.old) (L.faults log.new) × (L.faults log.new ≤ L.most log.new) }
    ensures most { (O.most out.new ≡ O.most out.old) × (L.most log.new ≡ L.most log.old) }
    ensures later { (O.faults out.old ≤ O.faults out.new) × (L.faults log.old ≤ L.faults log.new) }
{
    let stride = stride(tables, machine, writes, bound)?;
    drain(writes, out, log)?;
    match stride {
        Stride::Goes => Ok(None),
        Stride::Ends(end) => {
            let end = end_of(tables, end, machine)?;
            Ok(Some(end))
        }
        Stride::Lacks => unreachable!(),
    }
}

/// Does a stride, and writes what it has to write.
///
/// # Errors
///
/// Failed where a sink's count of faults rose, and Memory. A front of what the stride writes is
/// then written.
pub(crate) fn advance<O: Sink, L: Sink>(
    tables: &CodeTables,
    machine: &mut Machine,
    writes: &mut Writes,
    bound: u64,
    out: &mut O,
    log: &mut L,
) -> Result<Option<RunEnd>, WriteErr>
    requires stands { (p : Point) × StandsAt tables.now bound machine.old p }
    requires empty { pieces_of writes.old ≡ [] }
    ensures ok { IfOk result (λ stop. (p : Point) → StandsAt tables.now bound machine.old p
        → Advanced bound writes.old.events p machine.old machine.new (O.taken out.old)
        (O.taken out.new) (L.taken log.old) (L.taken log.new) stop) }
    ensures emptied { OnOk result (pieces_of writes.new ≡ []) }
    ensures events { OnOk result (writes.new.events ≡ writes.old.events) }
    ensures err { IfErr result (λ why. (p : Point) → StandsAt tables.now bound machine.old p
        → BrokeOffAt bound writes.old.events p machine.old (O.taken out.old) (O.taken out.new)
        (L.taken log.old) (L.taken log.new) why) }
    ensures out_failed { result ≡ Err (WriteErr.Failed stream.Out)
        → Rose (O.faults out.old) (O.faults out.new) × (O.faults out.new ≤ O.most out.new) }
    ensures log_failed { result ≡ Err (WriteErr.Failed stream.Log)
        → Rose (L.faults log.old) (L.faults log.new) × (L.faults log.new ≤ L.most log.new) }
    ensures most { (O.most out.new ≡ O.most out.old) × (L.most log.new ≡ L.most log.old) }
    ensures later { (O.faults out.old ≤ O.faults out.new) × (L.faults log.old ≤ L.faults log.new) }
{
    let done = fast_stride(tables, machine, writes, bound)?;
    if done {
        return Ok(None);
    }
    advance_in_full(tables, machine, writes, bound, out, log)
}
