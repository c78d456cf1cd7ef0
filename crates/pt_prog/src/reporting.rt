//! The run of a script with a report on its lines or names.

ghost use Rattle.std.specs.Prelude.{◌≡◌, ◌≤◌, ℕ, List, Err, IfErr, IfOk, Some};
ghost use Rattle.pt_base.specs.Faults.{Rose};
ghost use Rattle.pt_front.specs.Text.{IsScript};
ghost use Rattle.pt_prog.specs.Answer.{BrokeOffOver, IsBuilt, WroteAllOver, all_told, report_kind};
ghost use Rattle.pt_prog.specs.RunEnds.{unless_failed};
ghost use Rattle.pt_sinks.specs.declared.writing.Out.TheVariants as stream;
ghost use Rattle.pt_supported.specs.Built.{Built};
ghost use Rattle.pt_tree.specs.StatementFold.{script_of};
ghost use Rattle.pt_words.specs.Asked.{asked};

use crate::end::End;
use crate::running::run_plainly;
use pt_base::{Sink, SinkErr};
use pt_cover::{CountLog, ReportKind, Reporter};
use pt_reported::lines_and_names;
use pt_sinks::WriteErr;
use pt_tree::Script;
use pt_words::{Command, CommandLine};
use std::alloc::Global;

/// The command line of a plain run of a script with its events and totals.
fn all_told<'a>(line: &CommandLine<'a>) -> CommandLine<'a>
    ensures { asked result ≡ all_told (asked line.now) }
{
    CommandLine {
        command: Command::Run,
        script: line.script,
        steps: line.steps,
        events: true,
        stats: true,
    }
}

/// The answer of a run whose log passed everything on. A run ends with the first write that fails,
/// so that another answer is never met where it came to its end.
fn unless_failed(failed: Option<SinkErr>, answer: Result<End, WriteErr>) -> Result<End, WriteErr>
    ensures { result ≡ unless_failed failed answer }
{
    match answer {
        Ok(end) => match failed {
            None => Ok(end),
            Some(_) => Err(WriteErr::Memory),
        },
        Err(error) => Err(error),
    }
}

/// Runs a script that a text is, all of which is built, over a prelude. Before its totals the log
/// gets a report on its lines or names, and it gets events and totals where they are asked for.
///
/// # Errors
///
/// Failed where a sink's count of faults rose, and Memory.
pub fn run_reported<O: Sink, L: Sink>(
    alloc: Global,
    line: &CommandLine,
    kind: ReportKind,
    text: &[u8],
    prelude: &Script,
    script: &Script,
    out: &mut O,
    log: &mut L,
) -> Result<End, WriteErr>
    requires is_prelude { (source : List ℕ) × IsBuilt source (script_of prelude.now) }
    requires is_script { IsScript text.now (script_of script.now) }
    requires is_built { Built (script_of script.now) }
    requires reports { report_kind line.now.command ≡ Some kind }
    ensures ok { IfOk result
        (WroteAllOver (O.taken out.old) (O.taken out.new) (L.taken log.old) (L.taken log.new)
        (script_of prelude.now) (asked line.now) text.now) }
    ensures err { IfErr result
        (BrokeOffOver (O.taken out.old) (O.taken out.new) (L.taken log.old) (L.taken log.new)
        (script_of prelude.now) (asked line.now) text.now) }
    ensures out_failed { result ≡ Err (WriteErr.Failed stream.Out)
        → Rose (O.faults out.old) (O.faults out.new) × (O.faults out.new ≤ O.most out.new) }
    ensures log_failed { result ≡ Err (WriteErr.Failed stream.Log)
        → Rose (L.faults log.old) (L.faults log.new) × (L.faults log.new ≤ L.most log.new) }
    ensures most { (O.most out.new ≡ O.most out.old) × (L.most log.new ≡ L.most log.old) }
    ensures later { (O.faults out.old ≤ O.faults out.new)
        × (L.faults log.old ≤ L.faults log.new) }
{
    let of_script = lines_and_names(alloc, script)?;
    let report = Reporter::of(alloc, kind, of_script.lines(), of_script.names())?;
    let mut counting = CountLog::over(log, report, line.events, line.stats);
    let told = all_told(line);
    let answer = run_plainly(alloc, &told, text, prelude, script, out, &mut counting);
    let failed = counting.failed();
    let _log = counting.into_log();
    unless_failed(failed, answer)
}
