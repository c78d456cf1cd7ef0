//! What trace functions and tools answer to rows of a table, beside what a plain checker answered.
#![tactic(auto)]

mod hooks;
mod no_row;
mod tools;
mod words;

use no_row::NoRow;
use std::alloc::Global;
use std::process::ExitCode;
use std::{env, fs, io};

/// Writes what is answered of a row, by its first word.
fn answer(line: &mut String, alloc: Global, row: &str) -> Result<(), NoRow> {
    match row.split_once(": ") {
        Some(("tools", rest)) => tools::answers(line, alloc, rest),
        Some(("hooks", rest)) => hooks::answers(line, alloc, rest),
        _ => Err(NoRow),
    }
}

/// Prints what is answered of each row of a table.
fn table(rt: &HostRuntime, name: &str) -> io::Result<()> {
    let text = fs::read_to_string(rt, name)?;
    for row in text.as_str().lines() {
        let mut line = String::new(rt.alloc());
        if answer(&mut line, rt.alloc(), row).is_err() {
            line.push_str("no row")?;
        }
        println!(rt; "{line}")?;
    }
    Ok(())
}

/// The words are names of tables.
fn main(rt: HostRuntime) -> ExitCode {
    let Ok(args) = env::args(&rt) else {
        return ExitCode::from(1);
    };
    for name in args.skip(1) {
        if table(&rt, name.as_str()).is_err() {
            return ExitCode::from(1);
        }
    }
    ExitCode::from(0)
}
