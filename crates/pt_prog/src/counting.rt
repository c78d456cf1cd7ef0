//! The run of a script, with a count of the lines that it begins.

ghost use Rattle.std.specs.Prelude.{◌≡◌, ◌≤◌, ℕ, List, Err, IfErr, IfOk};
ghost use Rattle.pt_base.specs.Faults.{Rose};
ghost use Rattle.pt_front.specs.Text.{IsScript};
ghost use Rattle.pt_prog.specs.Counted.{HasCounted, with_lines};
ghost use Rattle.pt_run_script.specs.ScriptRun.{ScriptBrokeOff};
ghost use Rattle.pt_sinks.specs.declared.writing.Out.TheVariants as stream;
ghost use Rattle.pt_supported.specs.Built.{Built};
ghost use Rattle.pt_tree.specs.StatementFold.{script_of};

use pt_base::Sink;
use pt_generated::LineLog;
use pt_heap::Seed;
use pt_run_script::{Ended, run_script};
use pt_sinks::WriteErr;
use pt_tree::Script;
use std::alloc::Global;

/// How a run ended, and how many lines it began. The count stands still at the greatest u64.
#[derive(Debug, Drop)]
pub struct Counted {
    pub ended: Ended,
    pub lines: u64,
}

/// A run that wasn't broken off, with its lines.
fn with_lines(ran: Result<Ended, WriteErr>, lines: u64) -> Result<Counted, WriteErr>
    ensures { result ≡ with_lines lines ran }
{
    match ran {
        Ok(ended) => Ok(Counted { ended, lines }),
        Err(error) => Err(error),
    }
}

/// Runs a script as `run_script` does, and counts the lines that begin in its visible blocks,
/// whether or not the log gets its events.
///
/// # Errors
///
/// Failed where a sink's count of faults rose, and Memory. A front of what the run writes is then
/// written.
pub fn run_counted<O: Sink, L: Sink>(
    alloc: Global,
    seed: Seed,
    prelude: &Script,
    script: &Script,
    bound: u64,
    events: bool,
    out: &mut O,
    log: &mut L,
) -> Result<Counted, WriteErr>
    requires read_prelude { (text : List ℕ) × IsScript text (script_of prelude.now) }
    requires built_prelude { Built (script_of prelude.now) }
    requires read { (text : List ℕ) × IsScript text (script_of script.now) }
    requires built { Built (script_of script.now) }
    ensures ok { IfOk result (HasCounted (script_of prelude.now) (script_of script.now)
        bound events (O.taken out.old) (O.taken out.new) (L.taken log.old) (L.taken log.new)) }
    ensures err { IfErr result (ScriptBrokeOff (script_of prelude.now) (script_of script.now)
        bound events (O.taken out.old) (O.taken out.new) (L.taken log.old) (L.taken log.new)) }
    ensures out_failed { result ≡ Err (WriteErr.Failed stream.Out)
        → Rose (O.faults out.old) (O.faults out.new) × (O.faults out.new ≤ O.most out.new) }
    ensures log_failed { result ≡ Err (WriteErr.Failed stream.Log)
        → Rose (L.faults log.old) (L.faults log.new) × (L.faults log.new ≤ L.most log.new) }
    ensures most { (O.most out.new ≡ O.most out.old) × (L.most log.new ≡ L.most log.old) }
    ensures later { (O.faults out.old ≤ O.faults out.new)
        × (L.faults log.old ≤ L.faults log.new) }
{
    let mut counting = LineLog::over(log, events);
    let ran = run_script(
        alloc,
        seed,
        prelude,
        script,
        bound,
        true,
        out,
        &mut counting,
    );
    let lines = counting.lines();
    let _log = counting.into_log();
    with_lines(ran, lines)
}
