ghost use Rattle.std.specs.Prelude.{◌≡◌, ◌≤◌, ℕ, List, Err, IfOk, IfErr};
ghost use Rattle.pt_base.specs.Faults.{Rose};
ghost use Rattle.pt_supported.specs.Built.{Built};
ghost use Rattle.pt_front.specs.Text.{IsScript};
ghost use Rattle.pt_run_script.specs.ScriptRun.{ScriptBrokeOff, ScriptFinished};
ghost use Rattle.pt_sinks.specs.declared.writing.Out.TheVariants as stream;
ghost use Rattle.pt_tree.specs.StatementFold.{script_of};

use pt_base::Sink;
use pt_code_loader::{load, start};
use pt_compile::compile;
use pt_heap::Seed;
use pt_run_code::{Ended, run};
use pt_sinks::WriteErr;
use pt_tree::Script;
use std::alloc::Global;

/// Runs a script that a text is, over a prelude that is one too, all of which is built, under a bound
/// on acts. The prelude's blocks are hidden. What it prints goes to out, and with `events` the lines
/// of events to the log, each in one write. Each of the two takes its own in the order of the run;
/// how they lie beside each other is told only where a write breaks off.
///
/// Where it isn't broken off, it ends as the run of the script's tree does under this bound, it has
/// taken as many acts, and all that the run writes was written.
///
/// # Errors
///
/// Failed where a sink's count of faults rose, and Memory. A front of what the run writes is then
/// written.
pub fn run_script<O: Sink, L: Sink>(
    alloc: Global,
    seed: Seed,
    prelude: &Script,
    script: &Script,
    bound: u64,
    events: bool,
    out: &mut O,
    log: &mut L,
) -> Result<Ended, WriteErr>
    requires read_prelude { (text : List ℕ) × IsScript text (script_of prelude.now) }
    requires built_prelude { Built (script_of prelude.now) }
    requires read { (text : List ℕ) × IsScript text (script_of script.now) }
    requires built { Built (script_of script.now) }
    ensures ok { IfOk result (ScriptFinished (script_of prelude.now) (script_of script.now)
        bound events (O.taken out.old) (O.taken out.new) (L.taken log.old) (L.taken log.new)) }
    ensures err { IfErr result (ScriptBrokeOff (script_of prelude.now) (script_of script.now)
        bound events (O.taken out.old) (O.taken out.new) (L.taken log.old) (L.taken log.new)) }
    ensures out_failed { result ≡ Err (WriteErr.Failed stream.Out)
        → Rose (O.faults out.old) (O.faults out.new) × (O.faults out.new ≤ O.most out.new) }
    ensures log_failed { result ≡ Err (WriteErr.Failed stream.Log)
        → Rose (L.faults log.old) (L.faults log.new) × (L.faults log.new ≤ L.most log.new) }
    ensures most { (O.most out.new ≡ O.most out.old) × (L.most log.new ≡ L.most log.old) }
    ensures later { (O.faults out.old ≤ O.faults out.new)
        × (L.faults log.old ≤ L.faults log.new) }
{
    let prelude_code = compile(alloc, prelude)?;
    let code = compile(alloc, script)?;
    let loaded = load(alloc, seed, &prelude_code, &code)?;
    let mut machine = start(alloc, seed, &loaded)?;
    run(alloc, &loaded.tables, &mut machine, bound, events, out, log)
}
