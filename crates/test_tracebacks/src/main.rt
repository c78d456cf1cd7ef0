//! The tracebacks of the exceptions of a table's rows, beside what CPython printed.
#![tactic(auto)]

mod heaps;
mod names;
mod no_row;

use heaps::heap_of_exceptions;
use names::names_of;
use no_row::NoRow;
use pt_base::ObjId;
use pt_heap::Value;
use pt_tracebacks::{summaries, traceback_text};
use std::alloc::Global;
use std::process::ExitCode;
use test_notation::{Kind, Printed, answer_tables, text_of};

/// Writes the traceback of the first exception of a row. A row has the name of a file, `run` with a
/// script's text or `exec`, the names of blocks, and exceptions, between tabs.
fn write_row(line: &mut String, alloc: Global, row: &str) -> Result<(), NoRow> {
    let (file, rest) = row.split_once("\t").ok_or(NoRow)?;
    let (source, rest) = rest.split_once("\t").ok_or(NoRow)?;
    let (names, exceptions) = rest.split_once("\t").ok_or(NoRow)?;
    let names = names_of(alloc, names)?;
    let (heap, first) = heap_of_exceptions(alloc, exceptions)?;
    let told = summaries(alloc, &heap, &names, Value::Obj(ObjId(first)))?;
    let bytes = match source.split_once(" ") {
        Some((_, text)) => {
            let text = text_of(alloc, text)?;
            traceback_text(alloc, file, Some(text.as_slice()), told.as_slice())?
        }
        None => traceback_text(alloc, file, None, told.as_slice())?,
    };
    write!(line, "{}", bytes.as_slice().escape_ascii())?;
    Ok(())
}

/// Rows of exceptions.
#[derive(Clone, Copy)]
struct Tracebacks;

impl Kind for Tracebacks {
    fn named(word: &str) -> Option<Tracebacks> {
        if word == "tracebacks" {
            return Some(Tracebacks);
        }
        None
    }

    fn between(self) -> &'static str {
        "\n"
    }

    fn answer(self, out: &mut String, alloc: Global, row: &str) -> Printed {
        if write_row(out, alloc, row).is_err() {
            out.push_str("no row")?;
        }
        Ok(())
    }

    fn is_taken(self, _alloc: Global, _text: &[u8]) -> bool {
        false
    }
}

fn main(rt: HostRuntime) -> ExitCode {
    answer_tables::<Tracebacks, HostRuntime>(&rt)
}
