ghost use Rattle.std.specs.Prelude.{◌≡◌, ◌≢◌, ◌≤◌, ◌⊎◌, None, Some, Err, IfErr, IfOk, IfSome};
ghost use Rattle.std.specs.Prelude.{ℕ, List, false, length, option_map};
ghost use Rattle.pt_base.specs.Faults.{Rose};
ghost use Rattle.pt_base.specs.Told.{IsLacked, IsLonger};
ghost use Rattle.pt_prog.specs.Answer.{BrokeOffFor, BrokeOffOver, IsBuilt, IsComplete, OfAsked};
ghost use Rattle.pt_generated.specs.Script as generated;
ghost use Rattle.pt_prog.specs.Answer.{Wrote, WroteAllFor, WroteAllOver, asked_for, made_by};
ghost use Rattle.pt_prog.specs.Limits.{limit_of, reads_code, script_limit};
ghost use Rattle.pt_prog.specs.RunEnds.{ended};
ghost use Rattle.pt_sinks.specs.declared.writing.Out.TheVariants as stream;
ghost use Rattle.pt_tree.specs.StatementFold.{script_of};
ghost use Rattle.pt_words.specs.Asked.{asked};
ghost use Rattle.pt_words.specs.Words.{CountFits, most_functions};

use crate::build::file_of;
use crate::dis::listing_of;
use crate::end::{End, File};
use crate::ending::write_final;
use crate::exec::exec_file;
use crate::prelude::prelude;
use crate::running::run_built;
use pt_base::{Failure, Shelf, ShelfErr, Sink};
use pt_front::front;
use pt_generated::script_of;
use pt_sinks::{Out, WriteErr, put};
use pt_tree::Script;
use pt_words::{Command, CommandLine, WordsErr, parse};
use std::alloc::Global;

/// How many bytes a script may have.
pub const SCRIPT_LIMIT: u64 = 1_048_576;

/// How many bytes a code file may have.
pub const CODE_LIMIT: u64 = 16_777_216;

fn reads_code(command: Command) -> bool
    ensures { result ≡ reads_code command }
{
    match command {
        Command::Exec => true,
        Command::Run
        | Command::Trace
        | Command::Dis
        | Command::Build
        | Command::Cover
        | Command::Profile
        | Command::Gen { .. } => false,
    }
}

/// How many bytes the file of a command may have.
fn limit_of(command: Command) -> u64
    ensures { result ≡ limit_of command }
{
    if reads_code(command) {
        CODE_LIMIT
    } else {
        SCRIPT_LIMIT
    }
}

/// Answers for the text of a script: runs it, or writes its code to out, in one write.
fn answer_text<O: Sink, L: Sink>(
    alloc: Global,
    line: &CommandLine,
    text: &[u8],
    prelude: &Script,
    out: &mut O,
    log: &mut L,
) -> Result<End, WriteErr>
    requires is_prelude { (source : List ℕ) × IsBuilt source (script_of prelude.now) }
    requires within { length text.now ≤ script_limit }
    requires reads { reads_code line.now.command ≡ false }
    ensures ok { IfOk result
        (WroteAllOver (O.taken out.old) (O.taken out.new) (L.taken log.old) (L.taken log.new)
        (script_of prelude.now) (asked line.now) text.now) }
    ensures err { IfErr result
        (BrokeOffOver (O.taken out.old) (O.taken out.new) (L.taken log.old) (L.taken log.new)
        (script_of prelude.now) (asked line.now) text.now) }
    ensures out_failed { result ≡ Err (WriteErr.Failed stream.Out)
        → Rose (O.faults out.old) (O.faults out.new) × (O.faults out.new ≤ O.most out.new) }
    ensures log_failed { result ≡ Err (WriteErr.Failed stream.Log)
        → Rose (L.faults log.old) (L.faults log.new) × (L.faults log.new ≤ L.most log.new) }
    ensures most { (O.most out.new ≡ O.most out.old) × (L.most log.new ≡ L.most log.old) }
    ensures later { (O.faults out.old ≤ O.faults out.new)
        × (L.faults log.old ≤ L.faults log.new) }
{
    let script = match front(alloc, text) {
        Ok((script, _)) => script,
        Err(Failure::Refused(error)) => {
            return write_final(alloc, End::Refused { error }, out, log);
        }
        Err(Failure::Memory) => return Err(WriteErr::Memory),
    };
    match line.command {
        Command::Run | Command::Trace | Command::Cover | Command::Profile | Command::Gen { .. } =>
            run_built(alloc, line, text, prelude, &script, out, log),
        Command::Dis => {
            let lines = listing_of(alloc, &script)?;
            put(Out::Out, lines.as_str().as_bytes(), out, log)?;
            Ok(End::Done)
        }
        Command::Build => {
            let bytes = file_of(alloc, &script)?;
            put(Out::Out, bytes.as_slice(), out, log)?;
            Ok(End::Done)
        }
        // The caller has seen to it that the command isn't this one.
        Command::Exec => unreachable!(),
    }
}

/// Answers for the file that the words name, over a prelude.
fn answer_over<O: Sink, L: Sink>(
    alloc: Global,
    line: &CommandLine,
    bytes: &[u8],
    prelude: &Script,
    out: &mut O,
    log: &mut L,
) -> Result<End, WriteErr>
    requires is_prelude { (source : List ℕ) × IsBuilt source (script_of prelude.now) }
    requires within { length bytes.now ≤ limit_of line.now.command }
    ensures ok { IfOk result
        (WroteAllOver (O.taken out.old) (O.taken out.new) (L.taken log.old) (L.taken log.new)
        (script_of prelude.now) (asked line.now) bytes.now) }
    ensures err { IfErr result
        (BrokeOffOver (O.taken out.old) (O.taken out.new) (L.taken log.old) (L.taken log.new)
        (script_of prelude.now) (asked line.now) bytes.now) }
    ensures out_failed { result ≡ Err (WriteErr.Failed stream.Out)
        → Rose (O.faults out.old) (O.faults out.new) × (O.faults out.new ≤ O.most out.new) }
    ensures log_failed { result ≡ Err (WriteErr.Failed stream.Log)
        → Rose (L.faults log.old) (L.faults log.new) × (L.faults log.new ≤ L.most log.new) }
    ensures most { (O.most out.new ≡ O.most out.old) × (L.most log.new ≡ L.most log.old) }
    ensures later { (O.faults out.old ≤ O.faults out.new)
        × (L.faults log.old ≤ L.faults log.new) }
{
    if reads_code(line.command) {
        return exec_file(alloc, line, bytes, prelude, out, log);
    }
    answer_text(alloc, line, bytes, prelude, out, log)
}

/// Answers for the file that the words name. The prelude is taken first.
fn answer_file<O: Sink, L: Sink>(
    alloc: Global,
    line: &CommandLine,
    bytes: &[u8],
    out: &mut O,
    log: &mut L,
) -> Result<End, WriteErr>
    requires { length bytes.now ≤ limit_of line.now.command }
    ensures ok { IfOk result
        (WroteAllFor (O.taken out.old) (O.taken out.new) (L.taken log.old) (L.taken log.new)
        (asked line.now) bytes.now) }
    ensures err { IfErr result
        (BrokeOffFor (O.taken out.old) (O.taken out.new) (L.taken log.old) (L.taken log.new)
        (asked line.now) bytes.now) }
    ensures out_failed { result ≡ Err (WriteErr.Failed stream.Out)
        → Rose (O.faults out.old) (O.faults out.new) × (O.faults out.new ≤ O.most out.new) }
    ensures log_failed { result ≡ Err (WriteErr.Failed stream.Log)
        → Rose (L.faults log.old) (L.faults log.new) × (L.faults log.new ≤ L.most log.new) }
    ensures most { (O.most out.new ≡ O.most out.old) × (L.most log.new ≡ L.most log.old) }
    ensures later { (O.faults out.old ≤ O.faults out.new)
        × (L.faults log.old ≤ L.faults log.new) }
{
    match prelude(alloc) {
        Ok(prelude) => answer_over(alloc, line, bytes, &prelude, out, log),
        Err(Failure::Refused(end)) => write_final(alloc, end, out, log),
        Err(Failure::Memory) => Err(WriteErr::Memory),
    }
}

/// Of how many functions a command makes its script, where it makes one.
fn made_by(command: Command) -> Option<u32>
    ensures made { option_map generated.script_of result ≡ made_by command }
    ensures fits { CountFits command → IfSome result (λ count. count ≤ most_functions) }
{
    match command {
        Command::Gen { count } => Some(count),
        Command::Run
        | Command::Trace
        | Command::Dis
        | Command::Build
        | Command::Exec
        | Command::Cover
        | Command::Profile => None,
    }
}

/// Answers for the script of so many functions that the command makes.
fn answer_made<O: Sink, L: Sink>(
    alloc: Global,
    line: &CommandLine,
    count: u32,
    out: &mut O,
    log: &mut L,
) -> Result<End, WriteErr>
    requires makes { made_by line.now.command ≡ Some (generated.script_of count) }
    requires fits { count ≤ most_functions }
    ensures ok { IfOk result
        (WroteAllFor (O.taken out.old) (O.taken out.new) (L.taken log.old) (L.taken log.new)
        (asked line.now) (generated.script_of count)) }
    ensures err { IfErr result
        (BrokeOffFor (O.taken out.old) (O.taken out.new) (L.taken log.old) (L.taken log.new)
        (asked line.now) (generated.script_of count)) }
    ensures out_failed { result ≡ Err (WriteErr.Failed stream.Out)
        → Rose (O.faults out.old) (O.faults out.new) × (O.faults out.new ≤ O.most out.new) }
    ensures log_failed { result ≡ Err (WriteErr.Failed stream.Log)
        → Rose (L.faults log.old) (L.faults log.new) × (L.faults log.new ≤ L.most log.new) }
    ensures most { (O.most out.new ≡ O.most out.old) × (L.most log.new ≡ L.most log.old) }
    ensures later { (O.faults out.old ≤ O.faults out.new)
        × (L.faults log.old ≤ L.faults log.new) }
{
    let text = script_of(alloc, count)?;
    answer_file(alloc, line, text.as_slice(), out, log)
}

/// A write that failed, and want of memory, as ends.
fn ended(answer: Result<End, WriteErr>) -> End
    ensures { result ≡ ended answer }
{
    match answer {
        Ok(end) => end,
        Err(WriteErr::Failed { which }) => End::WriteFault { which },
        Err(WriteErr::Memory) => End::Memory,
    }
}

/// All that the program does: reads the words and the file that they name, a script or code, or
/// makes the script of a number, and runs it, or writes the listing or the file of a script's code.
///
/// The order of answers is Usage, ReadFault, TooLong, Refused or BadCode, for a run Unbuilt, and
/// then those of the run. The prelude, over which all runs, comes before the file's text: where it
/// is no script that is built, the answer says so, whatever the text is. Behind what a run writes
/// the log gets the totals, where they are asked for, and in one write the traceback of an exception
/// that left the script or the text of the end. With `cover` and `profile` a report on lines or
/// names stands before the totals. With `gen`, which reads no file, out gets a summary of the run in
/// one write behind all that, where the script came to its end. After a write that failed nothing
/// more is written.
pub fn top<F: Shelf, O: Sink, L: Sink>(
    alloc: Global,
    words: &[String],
    shelf: &mut F,
    out: &mut O,
    log: &mut L,
) -> End
    ensures usage { result ≡ End.Usage → asked_for words.now ≡ None }
    ensures only_usage { asked_for words.now ≡ None → (result ≡ End.Usage)
        ⊎ ((result ≡ End.WriteFault stream.Log) ⊎ (result ≡ End.Memory)) }

    // Each fault has its cause, and objects that cannot fail give none.
    ensures read_fault { result ≡ End.ReadFault → Rose (F.faults shelf.old) (F.faults shelf.new)
        ⊎ OfAsked words.now (λ a. IsLacked (F.told shelf.old a.script)) }
    ensures too_long { result ≡ End.TooLong File.First
        → OfAsked words.now (λ a. IsLonger (F.told shelf.old a.script) (limit_of a.command)) }
    ensures out_fault { result ≡ End.WriteFault stream.Out
        → Rose (O.faults out.old) (O.faults out.new) }
    ensures log_fault { result ≡ End.WriteFault stream.Log
        → Rose (L.faults log.old) (L.faults log.new) }
    ensures no_read_fault { F.most shelf.old ≡ 0 → result ≡ End.ReadFault
        → OfAsked words.now (λ a. IsLacked (F.told shelf.old a.script)) }
    ensures no_out_fault { O.most out.old ≡ 0 → result ≢ End.WriteFault stream.Out }
    ensures no_log_fault { L.most log.old ≡ 0 → result ≢ End.WriteFault stream.Log }

    // What was written to out and to the log, to each in its order, for every answer, and the text
    // and script whose meaning or code it is.
    ensures writes { Wrote
        (O.taken out.old) (O.taken out.new) (L.taken log.old) (L.taken log.new)
        (Rose (F.faults shelf.old) (F.faults shelf.new)) words.now (F.told shelf.old) result }
    ensures kept { F.told shelf.new ≡ F.told shelf.old }

    // Where no count of faults rose, the end of a text that is told, or that the command makes, is
    // the one that the text says.
    ensures complete { (Rose (F.faults shelf.old) (F.faults shelf.new) → ⊥)
        → (Rose (O.faults out.old) (O.faults out.new) → ⊥)
        → (Rose (L.faults log.old) (L.faults log.new) → ⊥)
        → IsComplete words.now (F.told shelf.old) result }
{
    let line = match parse(alloc, words) {
        Ok(line) => line,
        Err(WordsErr::Usage) => return ended(write_final(alloc, End::Usage, out, log)),
        Err(WordsErr::Memory) => return End::Memory,
    };
    let made = made_by(line.command);
    if let Some(count) = made {
        return ended(answer_made(alloc, &line, count, out, log));
    }
    match shelf.read(alloc, line.script, limit_of(line.command)) {
        Ok(text) => ended(answer_file(alloc, &line, text.as_slice(), out, log)),
        Err(ShelfErr::Failed) => ended(write_final(alloc, End::ReadFault, out, log)),
        Err(ShelfErr::TooLong) => {
            let which = File::First;
            ended(write_final(alloc, End::TooLong { which }, out, log))
        }
        Err(ShelfErr::Memory) => End::Memory,
    }
}
