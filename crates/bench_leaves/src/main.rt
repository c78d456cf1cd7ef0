//! What the benchmark of the leaf crates times: look-ups in a table of act marks, and the reading
//! of a code file.
#![tactic(auto)]

ghost use Rattle.std.specs.Prelude.{IsTrue};
ghost use Rattle.pt_ranges.specs.Marks.{Rises};

use pt_base::{ActNo, Line, Memory, Pc, Seq};
use pt_code::read;
use pt_ranges::{ActMark, LineTable};
use std::alloc::Global;
use std::process::ExitCode;
use std::{env, fs};

/// Whether each mark stands before the next.
fn rises(rows: &[ActMark]) -> bool
    ensures { IsTrue result → Rises rows.now }
{
    let mut i = 1;
    while i < rows.len() {
        if rows[i - 1].pc.0 >= rows[i].pc.0 {
            return false;
        }
        i += 1;
    }
    true
}

/// How many places lie between two marks.
const STEP: u32 = 3;

/// So many marks.
fn marks(alloc: Global, count: u32) -> Result<Seq<ActMark>, Memory> {
    let mut rows = Seq::new(alloc);
    for i in 0..count {
        rows.push(ActMark {
            pc: Pc(i.wrapping_mul(STEP)),
            act: ActNo(i),
            line: Line(i),
            again: false,
        })?;
    }
    Ok(rows)
}

/// Looks up so many places, spread over a table of so many marks, and answers whether each has a
/// line.
fn look_up(alloc: Global, count: u32, times: u32) -> Result<bool, Memory> {
    let rows = marks(alloc, count)?;
    if !rises(rows.as_slice()) {
        return Ok(false);
    }
    let table = LineTable::build(alloc, rows.as_slice())?;
    let places = count.wrapping_mul(STEP).max(1);
    for i in 0..times {
        let place = Pc(i.wrapping_mul(2_654_435_761) % places);
        if table.line_at(place).is_none() {
            return Ok(false);
        }
    }
    Ok(true)
}

fn number(word: Option<String>) -> u32 {
    match word {
        Some(word) => word.as_str().parse::<u32>().unwrap_or(0),
        None => 0,
    }
}

fn reads_file(rt: &HostRuntime, name: &str) -> bool {
    match fs::read(rt, name) {
        Ok(bytes) => read(rt.alloc(), bytes.as_slice()).is_ok(),
        Err(_) => false,
    }
}

fn status(succeeded: bool) -> ExitCode {
    if succeeded {
        ExitCode::from(0)
    } else {
        ExitCode::from(1)
    }
}

/// The words are `lines`, a count of marks and a count of look-ups, or `read` and a file's name.
fn main(rt: HostRuntime) -> ExitCode {
    let Ok(mut args) = env::args(&rt) else {
        return status(false);
    };
    let _program = args.next();
    let Some(command) = args.next() else {
        return status(false);
    };
    if command.as_str() == "read" {
        let Some(name) = args.next() else {
            return status(false);
        };
        return status(reads_file(&rt, name.as_str()));
    }
    let count = number(args.next());
    let times = number(args.next());
    match look_up(rt.alloc(), count, times) {
        Ok(found) => status(found),
        Err(_) => status(false),
    }
}
