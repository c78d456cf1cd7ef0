//! The run of a code file, with what the log gets behind it.

ghost use Rattle.std.specs.Prelude.{◌≡◌, ◌≤◌, ℕ, List, Err, IfErr, IfOk, true};
ghost use Rattle.pt_base.specs.Failures.{IfRefused};
ghost use Rattle.pt_base.specs.Faults.{Rose};
ghost use Rattle.pt_base.specs.declared.failure.Failure.TheVariants as failure;
ghost use Rattle.sem_fits.specs.fits.Fits.{AllFit};
ghost use Rattle.pt_prog.specs.Answer.{BrokeOffOver, IsBadFile, IsBuilt, IsFileOf, IsMisfitOf};
ghost use Rattle.pt_prog.specs.Answer.{IsNoFile, IsVerifiedFile, WroteAllOver};
ghost use Rattle.pt_prog.specs.Limits.{reads_code};
ghost use Rattle.pt_prog.specs.declared.end.CodeRefusal.TheVariants as refusal;
ghost use Rattle.pt_sinks.specs.declared.writing.Out.TheVariants as stream;
ghost use Rattle.pt_tree.specs.StatementFold.{script_of};
ghost use Rattle.pt_words.specs.Asked.{asked};

use crate::end::{CodeRefusal, End};
use crate::ending::{write_final, write_last, write_totals};
use crate::prelude::prelude_code;
use crate::running::tells_events;
use pt_base::{Failure, Sink};
use pt_code::{Code, CodeErr, read};
use pt_heap::Seed;
use pt_run_script::run_code;
use pt_sinks::WriteErr;
use pt_supported_code::unbuilt;
use pt_tree::Script;
use pt_verify::{VerifyErr, verify};
use pt_words::CommandLine;
use std::alloc::Global;

/// Runs the code whose file the bytes are and that fits over the code of a prelude, if all of it is
/// built, and writes what the log gets behind it.
fn run_verified<O: Sink, L: Sink>(
    alloc: Global,
    line: &CommandLine,
    bytes: &[u8],
    prelude: &Script,
    code: &Code,
    out: &mut O,
    log: &mut L,
) -> Result<End, WriteErr>
    requires is_prelude { (source : List ℕ) × IsBuilt source (script_of prelude.now) }
    requires verified { IsVerifiedFile bytes.now code.now }
    requires reads { reads_code line.now.command ≡ true }
    ensures ok { IfOk result
        (WroteAllOver (O.taken out.old) (O.taken out.new) (L.taken log.old) (L.taken log.new)
        (script_of prelude.now) (asked line.now) bytes.now) }
    ensures err { IfErr result
        (BrokeOffOver (O.taken out.old) (O.taken out.new) (L.taken log.old) (L.taken log.new)
        (script_of prelude.now) (asked line.now) bytes.now) }
    ensures out_failed { result ≡ Err (WriteErr.Failed stream.Out)
        → Rose (O.faults out.old) (O.faults out.new) × (O.faults out.new ≤ O.most out.new) }
    ensures log_failed { result ≡ Err (WriteErr.Failed stream.Log)
        → Rose (L.faults log.old) (L.faults log.new) × (L.faults log.new ≤ L.most log.new) }
    ensures most { (O.most out.new ≡ O.most out.old) × (L.most log.new ≡ L.most log.old) }
    ensures later { (O.faults out.old ≤ O.faults out.new)
        × (L.faults log.old ≤ L.faults log.new) }
{
    let found = unbuilt(alloc, code)?;
    if let Some(first) = found {
        return write_final(alloc, End::Unbuilt { line: first }, out, log);
    }
    let hidden_code = prelude_code(alloc, prelude)?;
    let seed = Seed::of(bytes);
    let events = tells_events(line);
    let ended = run_code(
        alloc,
        seed,
        &hidden_code,
        code,
        line.steps,
        events,
        out,
        log,
    )?;
    write_totals(alloc, line.stats, &ended.totals, out, log)?;
    write_last(alloc, line.script, None, &ended.end, line.steps, out, log)
}

/// A code that fits, or why it doesn't.
fn fitting(alloc: Global, code: Code) -> Result<Code, Failure<VerifyErr>>
    ensures ok { IfOk result (λ c. (c ≡ code) × AllFit code) }
    ensures err { IfErr result (IfRefused (IsMisfitOf code)) }
{
    match verify(alloc, code) {
        Ok(verified) => Ok(verified.into_code()),
        Err(VerifyErr::Memory) => Err(Failure::Memory),
        Err(error) => Err(Failure::Refused(error)),
    }
}

/// The code whose file the bytes are, or why they are none.
fn read_code(alloc: Global, bytes: &[u8]) -> Result<Code, Failure<CodeErr>>
    ensures ok { IfOk result (IsFileOf bytes.now) }
    ensures err { IfErr result (IfRefused (IsNoFile bytes.now)) }
{
    match read(alloc, bytes) {
        Ok(code) => Ok(code),
        Err(CodeErr::Memory) => Err(Failure::Memory),
        Err(error) => Err(Failure::Refused(error)),
    }
}

/// Why bytes are no file of code, as the command says it.
fn no_code(error: CodeErr) -> Failure<CodeRefusal>
    ensures { result ≡ failure.Refused (refusal.Format error) }
{
    Failure::Refused(CodeRefusal::Format(error))
}

/// The code whose file the bytes are and that fits, or why there is none.
#[tactic(none)]
fn verified_code(alloc: Global, bytes: &[u8]) -> Result<Code, Failure<CodeRefusal>>
    ensures ok { IfOk result (IsVerifiedFile bytes.now) }
    ensures err { IfErr result (IfRefused (IsBadFile bytes.now)) }
{
    match read_code(alloc, bytes) {
        Ok(code) => match fitting(alloc, code) {
            Ok(code) => Ok(code),
            Err(Failure::Refused(error)) => Err(Failure::Refused(CodeRefusal::Misfit(error))),
            Err(Failure::Memory) => Err(Failure::Memory),
        },
        Err(Failure::Refused(error)) => Err(no_code(error)),
        Err(Failure::Memory) => Err(Failure::Memory),
    }
}

/// Reads, verifies and runs a code file over a prelude.
///
/// # Errors
///
/// Failed where a sink's count of faults rose, and Memory: for want of it, and where the code that
/// is to run names more text than `run_code` takes, or that of the prelude isn't run.
#[tactic(none)]
pub fn exec_file<O: Sink, L: Sink>(
    alloc: Global,
    line: &CommandLine,
    bytes: &[u8],
    prelude: &Script,
    out: &mut O,
    log: &mut L,
) -> Result<End, WriteErr>
    requires is_prelude { (source : List ℕ) × IsBuilt source (script_of prelude.now) }
    requires reads { reads_code line.now.command ≡ true }
    ensures ok { IfOk result
        (WroteAllOver (O.taken out.old) (O.taken out.new) (L.taken log.old) (L.taken log.new)
        (script_of prelude.now) (asked line.now) bytes.now) }
    ensures err { IfErr result
        (BrokeOffOver (O.taken out.old) (O.taken out.new) (L.taken log.old) (L.taken log.new)
        (script_of prelude.now) (asked line.now) bytes.now) }
    ensures out_failed { result ≡ Err (WriteErr.Failed stream.Out)
        → Rose (O.faults out.old) (O.faults out.new) × (O.faults out.new ≤ O.most out.new) }
    ensures log_failed { result ≡ Err (WriteErr.Failed stream.Log)
        → Rose (L.faults log.old) (L.faults log.new) × (L.faults log.new ≤ L.most log.new) }
    ensures most { (O.most out.new ≡ O.most out.old) × (L.most log.new ≡ L.most log.old) }
    ensures later { (O.faults out.old ≤ O.faults out.new)
        × (L.faults log.old ≤ L.faults log.new) }
{
    match verified_code(alloc, bytes) {
        Ok(code) => run_verified(alloc, line, bytes, prelude, &code, out, log),
        Err(Failure::Refused(error)) => { write_final(alloc, End::BadCode { error }, out, log) }
        Err(Failure::Memory) => Err(WriteErr::Memory),
    }
}
