//! The last writes of a call: those to the log, and a summary.

ghost use Rattle.std.specs.Prelude.{◌≡◌, ◌≢◌, ◌≤◌, ◌∷◌, ◌++◌, [], Err, Some, IfOk, OnOk, IfErr};
ghost use Rattle.std.specs.Option.{option_map};
ghost use Rattle.pt_base.specs.Faults.{Rose};
ghost use Rattle.pt_prog.specs.LogText.{final, is_done, line_of, summary, totals, traced};
ghost use Rattle.pt_prog.specs.RunEnds.{end_of_run, last_of_run};
ghost use Rattle.pt_sinks.specs.Writing.{Took, TookFront};
ghost use Rattle.pt_sinks.specs.declared.writing.Out.TheVariants as stream;

use crate::end::End;
use crate::log_text::{final_text, summary_text, totals_text};
use pt_base::Sink;
use pt_run_script::{RunEnd, Totals};
use pt_sinks::{Out, WriteErr, put};
use pt_tracebacks::{ExceptionSummary, traceback_text};
use std::alloc::Global;

/// Writes a text and a newline to the log, in one write.
fn write_line<O: Sink, L: Sink>(
    alloc: Global,
    text: &str,
    out: &mut O,
    log: &mut L,
) -> Result<(), WriteErr>
    ensures ok { OnOk result
        (Took (O.taken out.old) (O.taken out.new) (L.taken log.old) (L.taken log.new)
        (line_of (Some text.now))) }
    ensures err { IfErr result (λ why.
        TookFront (O.taken out.old) (O.taken out.new) (L.taken log.old) (L.taken log.new)
        why (line_of (Some text.now))) }
    ensures log_only { result ≢ Err (WriteErr.Failed stream.Out) }
    ensures out_failed { result ≡ Err (WriteErr.Failed stream.Out)
        → Rose (O.faults out.old) (O.faults out.new) × (O.faults out.new ≤ O.most out.new) }
    ensures log_failed { result ≡ Err (WriteErr.Failed stream.Log)
        → Rose (L.faults log.old) (L.faults log.new) × (L.faults log.new ≤ L.most log.new) }
    ensures most { (O.most out.new ≡ O.most out.old) × (L.most log.new ≡ L.most log.old) }
    ensures later { (O.faults out.old ≤ O.faults out.new)
        × (L.faults log.old ≤ L.faults log.new) }
{
    let Ok(line) = format!(in alloc; "{text}\n") else {
        return Err(WriteErr::Memory);
    };
    put(Out::Log, line.as_str().as_bytes(), out, log)
}

/// Writes the final text of an end, if it has one, and gives the end.
///
/// # Errors
///
/// Failed where a sink's count of faults rose, and Memory. A front of the text is then written.
pub fn write_final<O: Sink, L: Sink>(
    alloc: Global,
    end: End,
    out: &mut O,
    log: &mut L,
) -> Result<End, WriteErr>
    ensures ok { IfOk result (λ e. (e ≡ end)
        × Took (O.taken out.old) (O.taken out.new) (L.taken log.old) (L.taken log.new)
        (final end)) }
    ensures err { IfErr result (λ why.
        TookFront (O.taken out.old) (O.taken out.new) (L.taken log.old) (L.taken log.new)
        why (final end)) }
    ensures log_only { result ≢ Err (WriteErr.Failed stream.Out) }
    ensures out_failed { result ≡ Err (WriteErr.Failed stream.Out)
        → Rose (O.faults out.old) (O.faults out.new) × (O.faults out.new ≤ O.most out.new) }
    ensures log_failed { result ≡ Err (WriteErr.Failed stream.Log)
        → Rose (L.faults log.old) (L.faults log.new) × (L.faults log.new ≤ L.most log.new) }
    ensures most { (O.most out.new ≡ O.most out.old) × (L.most log.new ≡ L.most log.old) }
    ensures later { (O.faults out.old ≤ O.faults out.new)
        × (L.faults log.old ≤ L.faults log.new) }
{
    let Ok(text) = final_text(alloc, &end) else {
        return Err(WriteErr::Memory);
    };
    if let Some(text) = text {
        write_line(alloc, text.as_str(), out, log)?;
    }
    Ok(end)
}

/// Writes the traceback of exceptions to the log, in one write.
fn write_traceback<O: Sink, L: Sink>(
    alloc: Global,
    file: &str,
    source: Option<&[u8]>,
    exceptions: &[ExceptionSummary],
    out: &mut O,
    log: &mut L,
) -> Result<(), WriteErr>
    ensures ok { OnOk result
        (Took (O.taken out.old) (O.taken out.new) (L.taken log.old) (L.taken log.new)
        (traced file.now (option_map (λ s. s.now) source.entry) exceptions.now)) }
    ensures err { IfErr result (λ why.
        TookFront (O.taken out.old) (O.taken out.new) (L.taken log.old) (L.taken log.new)
        why (traced file.now (option_map (λ s. s.now) source.entry) exceptions.now)) }
    ensures log_only { result ≢ Err (WriteErr.Failed stream.Out) }
    ensures out_failed { result ≡ Err (WriteErr.Failed stream.Out)
        → Rose (O.faults out.old) (O.faults out.new) × (O.faults out.new ≤ O.most out.new) }
    ensures log_failed { result ≡ Err (WriteErr.Failed stream.Log)
        → Rose (L.faults log.old) (L.faults log.new) × (L.faults log.new ≤ L.most log.new) }
    ensures most { (O.most out.new ≡ O.most out.old) × (L.most log.new ≡ L.most log.old) }
    ensures later { (O.faults out.old ≤ O.faults out.new)
        × (L.faults log.old ≤ L.faults log.new) }
{
    let Ok(text) = traceback_text(alloc, file, source, exceptions) else {
        return Err(WriteErr::Memory);
    };
    put(Out::Log, text.as_slice(), out, log)
}

/// Writes what the log gets last of a run, the text of a SystemExit, the traceback of another
/// exception or the text of the end, and gives the end. The file is the one that was run; its lines
/// are shown where it has a source.
pub fn write_last<O: Sink, L: Sink>(
    alloc: Global,
    file: &str,
    source: Option<&[u8]>,
    end: &RunEnd,
    bound: u64,
    out: &mut O,
    log: &mut L,
) -> Result<End, WriteErr>
    ensures ok { IfOk result (λ e. (e ≡ end_of_run bound end.now)
        × Took (O.taken out.old) (O.taken out.new) (L.taken log.old) (L.taken log.new)
        (last_of_run file.now (option_map (λ s. s.now) source.entry) bound end.now)) }
    ensures err { IfErr result (λ why.
        TookFront (O.taken out.old) (O.taken out.new) (L.taken log.old) (L.taken log.new)
        why (last_of_run file.now (option_map (λ s. s.now) source.entry) bound end.now)) }
    ensures log_only { result ≢ Err (WriteErr.Failed stream.Out) }
    ensures out_failed { result ≡ Err (WriteErr.Failed stream.Out)
        → Rose (O.faults out.old) (O.faults out.new) × (O.faults out.new ≤ O.most out.new) }
    ensures log_failed { result ≡ Err (WriteErr.Failed stream.Log)
        → Rose (L.faults log.old) (L.faults log.new) × (L.faults log.new ≤ L.most log.new) }
    ensures most { (O.most out.new ≡ O.most out.old) × (L.most log.new ≡ L.most log.old) }
    ensures later { (O.faults out.old ≤ O.faults out.new)
        × (L.faults log.old ≤ L.faults log.new) }
{
    let end = match end {
        RunEnd::Exited { status, text } => {
            if let Some(last) = text {
                write_line(alloc, last.as_str(), out, log)?;
            }
            return Ok(End::Exited { code: *status });
        }
        RunEnd::Raised { exceptions } => {
            write_traceback(alloc, file, source, exceptions.as_slice(), out, log)?;
            return Ok(End::Raised);
        }
        RunEnd::Done => End::Done,
        RunEnd::Spent => End::Spent { acts: bound },
        RunEnd::Outside { what, line } => End::Outside {
            what: *what,
            line: *line,
        },
    };
    write_final(alloc, end, out, log)
}

/// Writes the totals of a run, where they are asked for.
pub fn write_totals<O: Sink, L: Sink>(
    alloc: Global,
    stats: bool,
    of_run: &Totals,
    out: &mut O,
    log: &mut L,
) -> Result<(), WriteErr>
    ensures ok { OnOk result
        (Took (O.taken out.old) (O.taken out.new) (L.taken log.old) (L.taken log.new)
        (totals stats of_run.now.acts of_run.now.instructions of_run.now.depth)) }
    ensures err { IfErr result (λ why.
        TookFront (O.taken out.old) (O.taken out.new) (L.taken log.old) (L.taken log.new)
        why (totals stats of_run.now.acts of_run.now.instructions of_run.now.depth)) }
    ensures log_only { result ≢ Err (WriteErr.Failed stream.Out) }
    ensures out_failed { result ≡ Err (WriteErr.Failed stream.Out)
        → Rose (O.faults out.old) (O.faults out.new) × (O.faults out.new ≤ O.most out.new) }
    ensures log_failed { result ≡ Err (WriteErr.Failed stream.Log)
        → Rose (L.faults log.old) (L.faults log.new) × (L.faults log.new ≤ L.most log.new) }
    ensures most { (O.most out.new ≡ O.most out.old) × (L.most log.new ≡ L.most log.old) }
    ensures later { (O.faults out.old ≤ O.faults out.new)
        × (L.faults log.old ≤ L.faults log.new) }
{
    if !stats {
        return Ok(());
    }
    let Ok(text) = totals_text(alloc, of_run) else {
        return Err(WriteErr::Memory);
    };
    put(Out::Log, text.as_str().as_bytes(), out, log)
}

/// Whether it came to its end.
fn is_done(end: &End) -> bool
    ensures { result ≡ is_done end.now }
{
    matches!(end, End::Done)
}

/// Sums up a run that ended so, where it came to its end, and gives the end.
///
/// # Errors
///
/// Failed where a sink's count of faults rose, and Memory. A front of the summary is then written.
pub fn write_summary<O: Sink, L: Sink>(
    alloc: Global,
    end: End,
    acts: u64,
    lines: u64,
    out: &mut O,
    log: &mut L,
) -> Result<End, WriteErr>
    ensures ok { IfOk result (λ e. (e ≡ end)
        × Took (O.taken out.old) (O.taken out.new) (L.taken log.old) (L.taken log.new)
        (summary end acts lines)) }
    ensures err { IfErr result (λ why.
        TookFront (O.taken out.old) (O.taken out.new) (L.taken log.old) (L.taken log.new)
        why (summary end acts lines)) }
    ensures out_failed { result ≡ Err (WriteErr.Failed stream.Out)
        → Rose (O.faults out.old) (O.faults out.new) × (O.faults out.new ≤ O.most out.new) }
    ensures log_failed { result ≡ Err (WriteErr.Failed stream.Log)
        → Rose (L.faults log.old) (L.faults log.new) × (L.faults log.new ≤ L.most log.new) }
    ensures most { (O.most out.new ≡ O.most out.old) × (L.most log.new ≡ L.most log.old) }
    ensures later { (O.faults out.old ≤ O.faults out.new)
        × (L.faults log.old ≤ L.faults log.new) }
{
    if !is_done(&end) {
        return Ok(end);
    }
    let Ok(text) = summary_text(alloc, acts, lines) else {
        return Err(WriteErr::Memory);
    };
    put(Out::Out, text.as_str().as_bytes(), out, log)?;
    Ok(end)
}
