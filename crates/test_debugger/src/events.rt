//! The events of rows.
use crate::no_row::NoRow;
use crate::words::number;
use pt_base::{ActNo, BlockId, FrameNo, Line};
use pt_bdb::{Event, EventKind};

/// An event, and the frame's caller.
#[derive(Clone, Copy)]
pub struct Happening {
    pub event: Event,
    pub caller: Option<FrameNo>,
}

fn kind(word: &str) -> Result<EventKind, NoRow> {
    match word {
        "call" => Ok(EventKind::Call),
        "line" => Ok(EventKind::Line),
        "return" => Ok(EventKind::Return),
        "exception" => Ok(EventKind::Exception),
        _ => Err(NoRow),
    }
}

fn frame(word: &str) -> Result<FrameNo, NoRow> {
    Ok(FrameNo(u64::from(number(word)?)))
}

/// An event: its kind, the frame, the block, the line, whether the frame is a generator's, and its
/// caller, with blanks between.
pub fn read_event(text: &str) -> Result<Happening, NoRow> {
    let mut words = text.split(" ");
    let kind = kind(words.next().ok_or(NoRow)?)?;
    let at = frame(words.next().ok_or(NoRow)?)?;
    let block = number(words.next().ok_or(NoRow)?)?;
    let line = number(words.next().ok_or(NoRow)?)?;
    let generator = words.next().ok_or(NoRow)? == "generator";
    let caller = match words.next() {
        Some(word) => Some(frame(word)?),
        None => None,
    };
    Ok(Happening {
        event: Event {
            kind,
            frame: at,
            block: BlockId(block),
            act: ActNo(0),
            line: Line(line),
            generator,
        },
        caller,
    })
}
