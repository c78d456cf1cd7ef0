ghost use Rattle.std.specs.Prelude.{◌≡◌, ◌≤◌, Err, IfOk, IfErr};
ghost use Rattle.pt_base.specs.Faults.{Rose};
ghost use Rattle.law_loading.specs.code_program.Laws.{IsRunnable};
ghost use Rattle.pt_run_code.specs.CodeRun.{CodeBrokeOff, CodeFinished};
ghost use Rattle.pt_sinks.specs.declared.writing.Out.TheVariants as stream;

use crate::texts::names_too_much;
use law_loading::{load, start};
use pt_base::Sink;
use pt_code::Code;
use pt_heap::Seed;
use pt_runner::{Ended, run};
use pt_sinks::WriteErr;
use std::alloc::Global;

/// Runs a code that has a file, whose blocks fit and which is supported, over a prelude that is such
/// a code too, under a bound on acts, whoever made them. The prelude's blocks are hidden. What it
/// prints goes to out, and with `events` the lines of events to the log, each in one write. Each of
/// the two takes its own in the order of the run; how they lie beside each other is told only where
/// a write breaks off.
///
/// Where it isn't broken off, it ends as the run of the code does under this bound, it has taken as
/// many acts, instructions and slots, and all that the run writes was written. It is never stuck.
///
/// Before the run it takes expected time and memory linear in the code and in the text that the
/// code names, each text as often as it is named: a block or a list has copies of its own of the
/// texts that it names.
///
/// # Errors
///
/// Failed where a sink's count of faults rose, and Memory: for want of it, and where the code names
/// more than 1,073,741,824 bytes of text. A front of what the run writes is then written, and in
/// the last case nothing.
pub fn run_code<O: Sink, L: Sink>(
    alloc: Global,
    seed: Seed,
    prelude: &Code,
    code: &Code,
    bound: u64,
    events: bool,
    out: &mut O,
    log: &mut L,
) -> Result<Ended, WriteErr>
    requires prelude { IsRunnable prelude.now }
    requires code { IsRunnable code.now }
    ensures ok { IfOk result (CodeFinished prelude.now code.now bound events (O.taken out.old)
        (O.taken out.new) (L.taken log.old) (L.taken log.new)) }
    ensures err { IfErr result (CodeBrokeOff prelude.now code.now bound events (O.taken out.old)
        (O.taken out.new) (L.taken log.old) (L.taken log.new)) }
    ensures out_failed { result ≡ Err (WriteErr.Failed stream.Out)
        → Rose (O.faults out.old) (O.faults out.new) × (O.faults out.new ≤ O.most out.new) }
    ensures log_failed { result ≡ Err (WriteErr.Failed stream.Log)
        → Rose (L.faults log.old) (L.faults log.new) × (L.faults log.new ≤ L.most log.new) }
    ensures most { (O.most out.new ≡ O.most out.old) × (L.most log.new ≡ L.most log.old) }
    ensures later { (O.faults out.old ≤ O.faults out.new)
        × (L.faults log.old ≤ L.faults log.new) }
{
    if names_too_much(code) {
        return Err(WriteErr::Memory);
    }
    let loaded = load(alloc, seed, prelude, code)?;
    let mut machine = start(alloc, seed, &loaded)?;
    run(alloc, &loaded.tables, &mut machine, bound, events, out, log)
}
