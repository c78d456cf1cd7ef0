//! The run of a script that a text is, with what the log gets behind it.

ghost use Rattle.std.specs.Prelude.{◌≡◌, ◌≤◌, ℕ, List, Err, IfErr, IfOk, None, false, true};
ghost use Rattle.pt_base.specs.Faults.{Rose};
ghost use Rattle.pt_front.specs.Text.{IsScript};
ghost use Rattle.pt_prog.specs.Answer.{BrokeOffOver, IsBuilt, WroteAllOver, is_run, report_kind};
ghost use Rattle.pt_prog.specs.Answer.{sums_up, tells_events, traces};
ghost use Rattle.pt_sinks.specs.declared.writing.Out.TheVariants as stream;
ghost use Rattle.pt_supported.specs.Built.{Built};
ghost use Rattle.pt_tree.specs.StatementFold.{script_of};
ghost use Rattle.pt_words.specs.Asked.{asked};

use crate::end::End;
use crate::ending::{write_final, write_last, write_totals};
use crate::reporting::run_reported;
use crate::summing::run_summed;
use pt_base::Sink;
use pt_cover::ReportKind;
use pt_heap::Seed;
use pt_run_script::run_script;
use pt_sinks::WriteErr;
use pt_supported::first_unbuilt;
use pt_tree::Script;
use pt_words::{Command, CommandLine};
use std::alloc::Global;

/// Whether the log has a line for each event.
pub fn tells_events(line: &CommandLine) -> bool
    ensures { result ≡ tells_events (asked line.now) }
{
    let traces = match line.command {
        Command::Trace => true,
        Command::Run
        | Command::Dis
        | Command::Build
        | Command::Exec
        | Command::Cover
        | Command::Profile
        | Command::Gen { .. } => false,
    };
    traces || line.events
}

/// Runs a script that a text is, all of which is built, over a prelude, without a report or a
/// summary, and writes what the log gets behind it.
///
/// # Errors
///
/// Failed where a sink's count of faults rose, and Memory.
pub fn run_plainly<O: Sink, L: Sink>(
    alloc: Global,
    line: &CommandLine,
    text: &[u8],
    prelude: &Script,
    script: &Script,
    out: &mut O,
    log: &mut L,
) -> Result<End, WriteErr>
    requires is_prelude { (source : List ℕ) × IsBuilt source (script_of prelude.now) }
    requires is_script { IsScript text.now (script_of script.now) }
    requires is_built { Built (script_of script.now) }
    requires is_run { is_run line.now.command ≡ true }
    requires reports_nothing { report_kind line.now.command ≡ None }
    requires sums_nothing { sums_up line.now.command ≡ false }
    ensures ok { IfOk result
        (WroteAllOver (O.taken out.old) (O.taken out.new) (L.taken log.old) (L.taken log.new)
        (script_of prelude.now) (asked line.now) text.now) }
    ensures err { IfErr result
        (BrokeOffOver (O.taken out.old) (O.taken out.new) (L.taken log.old) (L.taken log.new)
        (script_of prelude.now) (asked line.now) text.now) }
    ensures out_failed { result ≡ Err (WriteErr.Failed stream.Out)
        → Rose (O.faults out.old) (O.faults out.new) × (O.faults out.new ≤ O.most out.new) }
    ensures log_failed { result ≡ Err (WriteErr.Failed stream.Log)
        → Rose (L.faults log.old) (L.faults log.new) × (L.faults log.new ≤ L.most log.new) }
    ensures most { (O.most out.new ≡ O.most out.old) × (L.most log.new ≡ L.most log.old) }
    ensures later { (O.faults out.old ≤ O.faults out.new)
        × (L.faults log.old ≤ L.faults log.new) }
{
    let seed = Seed::of(text);
    let events = tells_events(line);
    let ended = run_script(alloc, seed, prelude, script, line.steps, events, out, log)?;
    write_totals(alloc, line.stats, &ended.totals, out, log)?;
    let source = Some(text);
    write_last(alloc, line.script, source, &ended.end, line.steps, out, log)
}

/// What the log has a report on behind the events of a run, if anything.
fn report_kind(command: Command) -> Option<ReportKind>
    ensures { result ≡ report_kind command }
{
    match command {
        Command::Run
        | Command::Trace
        | Command::Dis
        | Command::Build
        | Command::Exec
        | Command::Gen { .. } => None,
        Command::Cover => Some(ReportKind::Lines),
        Command::Profile => Some(ReportKind::Names),
    }
}

/// Whether out has a summary behind a run.
fn sums_up(command: Command) -> bool
    ensures { result ≡ sums_up command }
{
    match command {
        Command::Gen { .. } => true,
        Command::Run
        | Command::Trace
        | Command::Dis
        | Command::Build
        | Command::Exec
        | Command::Cover
        | Command::Profile => false,
    }
}

/// Runs the script that a text is over a prelude, if all of it is built, and writes what the log gets
/// behind it.
///
/// # Errors
///
/// Failed where a sink's count of faults rose, and Memory.
pub fn run_built<O: Sink, L: Sink>(
    alloc: Global,
    line: &CommandLine,
    text: &[u8],
    prelude: &Script,
    script: &Script,
    out: &mut O,
    log: &mut L,
) -> Result<End, WriteErr>
    requires is_prelude { (source : List ℕ) × IsBuilt source (script_of prelude.now) }
    requires is_script { IsScript text.now (script_of script.now) }
    requires is_run { is_run line.now.command ≡ true }
    ensures ok { IfOk result
        (WroteAllOver (O.taken out.old) (O.taken out.new) (L.taken log.old) (L.taken log.new)
        (script_of prelude.now) (asked line.now) text.now) }
    ensures err { IfErr result
        (BrokeOffOver (O.taken out.old) (O.taken out.new) (L.taken log.old) (L.taken log.new)
        (script_of prelude.now) (asked line.now) text.now) }
    ensures out_failed { result ≡ Err (WriteErr.Failed stream.Out)
        → Rose (O.faults out.old) (O.faults out.new) × (O.faults out.new ≤ O.most out.new) }
    ensures log_failed { result ≡ Err (WriteErr.Failed stream.Log)
        → Rose (L.faults log.old) (L.faults log.new) × (L.faults log.new ≤ L.most log.new) }
    ensures most { (O.most out.new ≡ O.most out.old) × (L.most log.new ≡ L.most log.old) }
    ensures later { (O.faults out.old ≤ O.faults out.new)
        × (L.faults log.old ≤ L.faults log.new) }
{
    if let Some(first) = first_unbuilt(script) {
        return write_final(alloc, End::Unbuilt { line: first }, out, log);
    }
    if sums_up(line.command) {
        return run_summed(alloc, line, text, prelude, script, out, log);
    }
    match report_kind(line.command) {
        None => run_plainly(alloc, line, text, prelude, script, out, log),
        Some(kind) => run_reported(alloc, line, kind, text, prelude, script, out, log),
    }
}
