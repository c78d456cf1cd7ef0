//! What a log that counts answers and passes on, for the rows of tables.
#![tactic(auto)]

mod no_row;
mod wanting;
mod words;

use no_row::NoRow;
use pt_base::{Sink, SinkErr};
use pt_cover::{CountLog, ReportKind};
use std::alloc::Global;
use std::process::ExitCode;
use test_notation::{Kind, Printed, answer_tables};
use wanting::Wanting;

/// What the rows of a table are.
#[derive(Clone, Copy)]
enum Rows {
    /// Pieces that are written to a log.
    Pieces,
}

fn write_error(out: &mut String, error: SinkErr) -> Printed {
    out.push_str(match error {
        SinkErr::Failed => "failed",
        SinkErr::Memory => "memory",
    })
}

/// Writes one piece so many times, and those answers that aren't Ok.
fn write_pieces<L: Sink>(
    out: &mut String,
    log: &mut CountLog<'_, L>,
    piece: &[u8],
    count: u32,
) -> Printed {
    for _ in 0..count {
        match log.write(piece) {
            Ok(()) => {}
            Err(error) => {
                write_error(out, error)?;
                out.push_str(" ")?;
            }
        }
    }
    Ok(())
}

/// A row has the kind of the report, whether events and totals are asked for, the numbers of the
/// calls that fail and of those that want memory, the lines, the names, and the pieces, with tabs
/// between.
fn write_row(out: &mut String, alloc: Global, row: &str) -> Result<(), NoRow> {
    let mut fields = row.split("\t");
    let kind = match fields.next() {
        Some("lines") => ReportKind::Lines,
        Some("names") => ReportKind::Names,
        _ => return Err(NoRow),
    };
    let asked = fields.next().ok_or(NoRow)?;
    let fails = words::numbers(alloc, fields.next().ok_or(NoRow)?)?;
    let wants = words::numbers(alloc, fields.next().ok_or(NoRow)?)?;
    let lines = words::lines(alloc, fields.next().ok_or(NoRow)?)?;
    let names = words::names(alloc, fields.next().ok_or(NoRow)?)?;
    let mut log = Wanting::new(alloc, fails, wants);
    let mut counting = CountLog::new(
        alloc,
        &mut log,
        lines.as_slice(),
        names.as_slice(),
        kind,
        asked.starts_with("y"),
        asked.ends_with("y"),
    )?;
    for field in fields {
        let (piece, count) = words::piece(alloc, field)?;
        write_pieces(out, &mut counting, piece.as_slice(), count)?;
    }
    let failed = counting.failed();
    drop(counting);
    match failed {
        Some(error) => write_error(out, error)?,
        None => out.push_str("ok")?,
    }
    for piece in log.pieces() {
        write!(out, " | {}", piece.as_slice().escape_ascii())?;
    }
    Ok(())
}

impl Kind for Rows {
    fn named(word: &str) -> Option<Rows> {
        match word {
            "pieces" => Some(Rows::Pieces),
            _ => None,
        }
    }

    fn between(self) -> &'static str {
        "\n"
    }

    fn answer(self, out: &mut String, alloc: Global, row: &str) -> Printed {
        if write_row(out, alloc, row).is_err() {
            out.push_str("no row")?;
        }
        Ok(())
    }

    fn is_taken(self, _alloc: Global, _text: &[u8]) -> bool {
        false
    }
}

fn main(rt: HostRuntime) -> ExitCode {
    answer_tables::<Rows, HostRuntime>(&rt)
}
