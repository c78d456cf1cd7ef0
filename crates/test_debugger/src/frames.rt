//! What is written of frames.
use crate::no_row::NoRow;
use crate::words::{name_list, number, text, text_lines};
use pt_base::{FrameNo, Line, Memory, Seq, Text};
use pt_heap::{Binding, Value, ViewFrame};
use pt_pdb::{Names, Stop, push_arguments, push_frames, push_stop};
use std::alloc::Global;

/// Answers each name by itself.
#[derive(Clone, Copy)]
struct Itself {
    alloc: Global,
}

impl Names for Itself {
    ghost Held = { Unit {0} };

    ghost held = { λ _. tt };

    ghost answer = { λ _ name. name };

    fn answer(&mut self, name: &Text) -> Result<Text, Memory> {
        Text::from_str(self.alloc, name.as_str())
    }
}

fn bindings(alloc: Global, word: &str) -> Result<Seq<Binding>, NoRow> {
    let mut bindings = Seq::new(alloc);
    for name in word.split_terminator(",") {
        bindings.push(Binding {
            name: text(alloc, name)?,
            value: Value::None,
        })?;
    }
    Ok(bindings)
}

/// A frame: its name, its line, its parameters and its locals, with blanks between.
fn frame(alloc: Global, word: &str) -> Result<ViewFrame, NoRow> {
    let mut words = word.split(" ");
    let name = text(alloc, words.next().ok_or(NoRow)?)?;
    let line = number(words.next().ok_or(NoRow)?)?;
    let params = name_list(alloc, words.next().ok_or(NoRow)?)?;
    let locals = bindings(alloc, words.next().ok_or(NoRow)?)?;
    Ok(ViewFrame {
        frame: FrameNo(0),
        caller: None,
        generator: false,
        name,
        line: Line(line),
        params,
        locals,
    })
}

/// Writes stops at each event of a frame.
fn write_stops(
    out: &mut Vec<u8>,
    alloc: Global,
    file: &str,
    lines: &[Seq<u8>],
    frame: &ViewFrame,
) -> Result<(), NoRow> {
    let stops = [
        Stop::Call,
        Stop::Line,
        Stop::Return,
        Stop::Exception {
            error: "ValueError: x",
        },
        Stop::PostMortem,
    ];
    for stop in stops {
        push_stop(alloc, out, stop, file, lines, frame)?;
    }
    Ok(())
}

/// Writes frames, the stops of the last, and its parameters. A row has the name of a file, its lines
/// without their outer blanks, the place of the chosen frame, and frames, the oldest first, with tabs between.
pub fn write(out: &mut Vec<u8>, alloc: Global, row: &str) -> Result<(), NoRow> {
    let (file, rest) = row.split_once("\t").ok_or(NoRow)?;
    let (source, rest) = rest.split_once("\t").ok_or(NoRow)?;
    let (chosen, rest) = rest.split_once("\t").ok_or(NoRow)?;
    let file = text(alloc, file)?;
    let lines = text_lines(alloc, source)?;
    let chosen = number(chosen)? as usize;
    let mut frames = Seq::new(alloc);
    for word in rest.split("\t") {
        frames.push(frame(alloc, word)?)?;
    }
    push_frames(
        alloc,
        out,
        file.as_str(),
        lines.as_slice(),
        frames.as_slice(),
        chosen,
    )?;
    if let [.., last] = frames.as_slice() {
        write_stops(out, alloc, file.as_str(), lines.as_slice(), last)?;
        push_arguments(out, &mut Itself { alloc }, last)?;
    }
    Ok(())
}
