//! The sessions of a debugger, without what they ask of a run.
use crate::events::{Happening, read_event};
use crate::no_row::NoRow;
use crate::words::{lines, text};
use pt_base::{Memory, Seq, Text};
use pt_bdb::{Judge, Verdict};
use pt_heap::ViewFrame;
use pt_sessions::Session;
use std::alloc::Global;
use test_notation::text_of;

/// Judges conditions by their first letters, where `x` is worth this.
#[derive(Clone, Copy)]
struct FirstLetter {
    x: Verdict,
}

impl Judge for FirstLetter {
    ghost use Rattle.pt_bdb.specs.declared.judge.Verdict.{Verdict};
    ghost use Rattle.test_debugger.specs.Verdicts.{verdict_of};

    ghost Held = { Verdict };

    ghost held = { λ j. j.x };

    ghost verdict = { λ x condition. verdict_of x condition };

    fn judge(&mut self, condition: &Text) -> Result<Verdict, Memory> {
        match condition.as_str().as_bytes() {
            [b't', ..] => Ok(Verdict::True),
            [b'f', ..] => Ok(Verdict::False),
            [b'x', ..] => Ok(self.x),
            _ => Ok(Verdict::Broken),
        }
    }
}

/// The frame of an event.
fn frame(alloc: Global, at: Happening) -> ViewFrame {
    ViewFrame {
        frame: at.event.frame,
        caller: at.caller,
        generator: at.event.generator,
        name: Text::new(alloc),
        line: at.event.line,
        params: Seq::new(alloc),
        locals: Seq::new(alloc),
    }
}

/// What `x` is worth.
fn worth(word: &str) -> Result<Verdict, NoRow> {
    match word {
        "t" => Ok(Verdict::True),
        "f" => Ok(Verdict::False),
        "b" => Ok(Verdict::Broken),
        _ => Err(NoRow),
    }
}

/// Writes whether the session stops at an event.
fn come(
    out: &mut Vec<u8>,
    alloc: Global,
    session: &mut Session,
    at: Happening,
    judge: &mut FirstLetter,
) -> Result<(), NoRow> {
    let stops = session.stops_at(alloc, out, &at.event, judge)?;
    out.extend_from_slice(if stops { b"stop\n" } else { b"-\n" })?;
    Ok(())
}

/// Writes a line of commands, the answer, and what comes of it.
fn take(
    out: &mut Vec<u8>,
    alloc: Global,
    session: &mut Session,
    at: Happening,
    line: &str,
) -> Result<(), NoRow> {
    if session.is_full() {
        return Err(NoRow);
    }
    let line = text_of(alloc, line)?;
    let outcome = session.take(alloc, out, line.as_slice(), &frame(alloc, at), &at.event)?;
    let told = format!(in alloc; "{outcome:?}\n")?;
    out.extend_from_slice(told.as_bytes())?;
    Ok(())
}

/// Writes a session. A row has the name of a file, the lines with acts, and then events behind `!`,
/// lines of commands behind `>` and what `x` is worth behind `=`, with tabs between.
pub fn write(out: &mut Vec<u8>, alloc: Global, row: &str) -> Result<(), NoRow> {
    let (file, rest) = row.split_once("\t").ok_or(NoRow)?;
    let (places, rest) = rest.split_once("\t").ok_or(NoRow)?;
    let mut session = Session::new(alloc, text(alloc, file)?, lines(alloc, places)?);
    let mut judge = FirstLetter { x: Verdict::Broken };
    let mut at = None;
    for item in rest.split("\t") {
        if let Some(event) = item.strip_prefix("!") {
            let happening = read_event(event)?;
            come(out, alloc, &mut session, happening, &mut judge)?;
            at = Some(happening);
        } else if let Some(word) = item.strip_prefix("=") {
            judge.x = worth(word)?;
        } else {
            let line = item.strip_prefix(">").ok_or(NoRow)?;
            take(out, alloc, &mut session, at.ok_or(NoRow)?, line)?;
        }
    }
    Ok(())
}
