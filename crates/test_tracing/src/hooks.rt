//! A row of trace functions is calls between `; `: `global`, `set_global f`, `quiet`, `local FRAME`,
//! `set_local FRAME f`, `lines FRAME`, `set_lines FRAME on`, `forget FRAME`, `due EVENT FRAME`,
//! `answered EVENT FRAME f`, `failed`, `busy`, `set_busy on`. A function is an integer, or `-`; an
//! event is `call`, `line`, `return` or `exception`; `on` is 1 or 0.
use crate::no_row::NoRow;
use crate::words::{Answered, number, show_bool, show_done, show_some, show_value, value};
use pt_base::{ActNo, BlockId, FrameNo, Line};
use pt_events::{Event, EventKind};
use pt_settrace::Hooks;
use std::alloc::Global;

fn frame(word: &str) -> Result<FrameNo, NoRow> {
    Ok(FrameNo(u64::from(number(word)?)))
}

fn event(kind: &str, at: &str) -> Result<Event, NoRow> {
    let kind = match kind {
        "call" => EventKind::Call,
        "line" => EventKind::Line,
        "return" => EventKind::Return,
        "exception" => EventKind::Exception,
        _ => return Err(NoRow),
    };
    Ok(Event {
        kind,
        frame: frame(at)?,
        block: BlockId(0),
        act: ActNo(0),
        line: Line(1),
        generator: false,
    })
}

/// Asks, and writes the answer.
fn asked(line: &mut String, hooks: &Hooks, words: &[&str]) -> Answered {
    match words {
        ["global"] => show_value(line, hooks.global()),
        ["quiet"] => show_bool(line, hooks.quiet()),
        ["busy"] => show_bool(line, hooks.busy()),
        ["local", at] => show_value(line, hooks.local(frame(at)?)),
        ["lines", at] => show_bool(line, hooks.lines(frame(at)?)),
        ["due", kind, at] => show_some(line, hooks.due(&event(kind, at)?)),
        _ => Err(NoRow),
    }
}

/// Changes what is kept, or asks.
fn call(line: &mut String, hooks: &mut Hooks, words: &[&str]) -> Answered {
    match words {
        ["set_global", f] => hooks.set_global(value(f)?),
        ["set_local", at, f] => hooks.set_local(frame(at)?, value(f)?)?,
        ["set_lines", at, on] => hooks.set_lines(frame(at)?, *on == "1")?,
        ["forget", at] => hooks.forget(frame(at)?),
        ["answered", kind, at, f] => hooks.answered(&event(kind, at)?, value(f)?)?,
        ["failed"] => hooks.failed(),
        ["set_busy", on] => hooks.set_busy(*on == "1"),
        _ => return asked(line, hooks, words),
    }
    show_done(line)
}

/// Writes the answers to the calls of a row.
pub fn answers(line: &mut String, alloc: Global, row: &str) -> Answered {
    let mut hooks = Hooks::new(alloc);
    for part in row.split("; ") {
        let mut words = Vec::new(alloc);
        for word in part.split(" ") {
            words.push(word)?;
        }
        call(line, &mut hooks, words.as_slice())?;
    }
    Ok(())
}
