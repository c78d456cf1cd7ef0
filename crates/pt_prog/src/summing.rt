//! The run of a script that is summed up.

ghost use Rattle.std.specs.Prelude.{◌≡◌, ◌≤◌, ℕ, List, Err, IfErr, IfOk, true};
ghost use Rattle.pt_base.specs.Faults.{Rose};
ghost use Rattle.pt_front.specs.Text.{IsScript};
ghost use Rattle.pt_prog.specs.Answer.{BrokeOffOver, IsBuilt, WroteAllOver, sums_up};
ghost use Rattle.pt_prog.specs.Counted.{counted_writes, ended_writes};
ghost use Rattle.pt_prog.specs.RunEnds.{end_of_run};
ghost use Rattle.pt_sinks.specs.Writing.{Took, TookFront};
ghost use Rattle.pt_sinks.specs.declared.writing.Out.TheVariants as stream;
ghost use Rattle.pt_supported.specs.Built.{Built};
ghost use Rattle.pt_tree.specs.StatementFold.{script_of};
ghost use Rattle.pt_words.specs.Asked.{asked};

use crate::counting::{Counted, run_counted};
use crate::end::End;
use crate::ending::{write_last, write_summary, write_totals};
use crate::running::tells_events;
use pt_base::Sink;
use pt_heap::Seed;
use pt_run_script::Ended;
use pt_sinks::WriteErr;
use pt_tree::Script;
use pt_words::CommandLine;
use std::alloc::Global;

/// Writes what the log gets behind a run: the totals, where they are asked for, and its last write.
fn write_ended<O: Sink, L: Sink>(
    alloc: Global,
    line: &CommandLine,
    text: &[u8],
    ran: &Ended,
    out: &mut O,
    log: &mut L,
) -> Result<End, WriteErr>
    ensures ok { IfOk result (λ e. (e ≡ end_of_run line.now.steps ran.now.end)
        × Took (O.taken out.old) (O.taken out.new) (L.taken log.old) (L.taken log.new)
        (ended_writes (asked line.now) text.now ran.now)) }
    ensures err { IfErr result (λ why.
        TookFront (O.taken out.old) (O.taken out.new) (L.taken log.old) (L.taken log.new)
        why (ended_writes (asked line.now) text.now ran.now)) }
    ensures out_failed { result ≡ Err (WriteErr.Failed stream.Out)
        → Rose (O.faults out.old) (O.faults out.new) × (O.faults out.new ≤ O.most out.new) }
    ensures log_failed { result ≡ Err (WriteErr.Failed stream.Log)
        → Rose (L.faults log.old) (L.faults log.new) × (L.faults log.new ≤ L.most log.new) }
    ensures most { (O.most out.new ≡ O.most out.old) × (L.most log.new ≡ L.most log.old) }
    ensures later { (O.faults out.old ≤ O.faults out.new)
        × (L.faults log.old ≤ L.faults log.new) }
{
    write_totals(alloc, line.stats, &ran.totals, out, log)?;
    let source = Some(text);
    write_last(alloc, line.script, source, &ran.end, line.steps, out, log)
}

/// Writes what the log gets behind a run, and its summary.
fn write_counted<O: Sink, L: Sink>(
    alloc: Global,
    line: &CommandLine,
    text: &[u8],
    ran: &Counted,
    out: &mut O,
    log: &mut L,
) -> Result<End, WriteErr>
    ensures ok { IfOk result (λ e. (e ≡ end_of_run line.now.steps ran.now.ended.end)
        × Took (O.taken out.old) (O.taken out.new) (L.taken log.old) (L.taken log.new)
        (counted_writes (asked line.now) text.now ran.now)) }
    ensures err { IfErr result (λ why.
        TookFront (O.taken out.old) (O.taken out.new) (L.taken log.old) (L.taken log.new)
        why (counted_writes (asked line.now) text.now ran.now)) }
    ensures out_failed { result ≡ Err (WriteErr.Failed stream.Out)
        → Rose (O.faults out.old) (O.faults out.new) × (O.faults out.new ≤ O.most out.new) }
    ensures log_failed { result ≡ Err (WriteErr.Failed stream.Log)
        → Rose (L.faults log.old) (L.faults log.new) × (L.faults log.new ≤ L.most log.new) }
    ensures most { (O.most out.new ≡ O.most out.old) × (L.most log.new ≡ L.most log.old) }
    ensures later { (O.faults out.old ≤ O.faults out.new)
        × (L.faults log.old ≤ L.faults log.new) }
{
    let end = write_ended(alloc, line, text, &ran.ended, out, log)?;
    write_summary(alloc, end, ran.ended.totals.acts, ran.lines, out, log)
}

/// Runs a script that a text is, all of which is built, over a prelude, and writes what the log gets
/// behind it, and then its summary to out.
///
/// # Errors
///
/// Failed where a sink's count of faults rose, and Memory.
pub fn run_summed<O: Sink, L: Sink>(
    alloc: Global,
    line: &CommandLine,
    text: &[u8],
    prelude: &Script,
    script: &Script,
    out: &mut O,
    log: &mut L,
) -> Result<End, WriteErr>
    requires is_prelude { (source : List ℕ) × IsBuilt source (script_of prelude.now) }
    requires is_script { IsScript text.now (script_of script.now) }
    requires is_built { Built (script_of script.now) }
    requires sums { sums_up line.now.command ≡ true }
    ensures ok { IfOk result
        (WroteAllOver (O.taken out.old) (O.taken out.new) (L.taken log.old) (L.taken log.new)
        (script_of prelude.now) (asked line.now) text.now) }
    ensures err { IfErr result
        (BrokeOffOver (O.taken out.old) (O.taken out.new) (L.taken log.old) (L.taken log.new)
        (script_of prelude.now) (asked line.now) text.now) }
    ensures out_failed { result ≡ Err (WriteErr.Failed stream.Out)
        → Rose (O.faults out.old) (O.faults out.new) × (O.faults out.new ≤ O.most out.new) }
    ensures log_failed { result ≡ Err (WriteErr.Failed stream.Log)
        → Rose (L.faults log.old) (L.faults log.new) × (L.faults log.new ≤ L.most log.new) }
    ensures most { (O.most out.new ≡ O.most out.old) × (L.most log.new ≡ L.most log.old) }
    ensures later { (O.faults out.old ≤ O.faults out.new)
        × (L.faults log.old ≤ L.faults log.new) }
{
    let seed = Seed::of(text);
    let events = tells_events(line);
    let bound = line.steps;
    let ran = run_counted(alloc, seed, prelude, script, bound, events, out, log)?;
    write_counted(alloc, line, text, &ran, out, log)
}
