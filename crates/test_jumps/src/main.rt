//! What debuggers ask of code files that fit, which stand in tables in hex: where jumps lead from a
//! place to a line, and which slots lie at places.
#![tactic(auto)]

mod jumps;
mod no_row;
mod slots;

use jumps::jump_in;
use no_row::NoRow;
use pt_code::Code;
use slots::slots_in;
use std::alloc::Global;
use std::process::ExitCode;
use std::{env, fs, io};

fn code_of(alloc: Global, digits: &str) -> Result<Code, NoRow> {
    let bytes = hex::decode(alloc, digits).map_err(|_| NoRow)?;
    pt_code::read(alloc, bytes.as_slice()).map_err(|_| NoRow)
}

/// Writes what is told of a code file, by the name of the table.
fn answer(line: &mut String, alloc: Global, name: &str, row: &str) -> Result<(), NoRow> {
    let (digits, words) = row.split_once(" ").unwrap_or((row, ""));
    let code = code_of(alloc, digits)?;
    if name == "jumps.txt" {
        return jump_in(line, alloc, &code, words);
    }
    slots_in(line, alloc, &code)
}

/// Prints what is answered of each row of a table; a comment stands as it is.
fn table(rt: &HostRuntime, name: &str) -> io::Result<()> {
    let text = fs::read_to_string(rt, name)?;
    for row in text.as_str().lines() {
        let mut line = String::new(rt.alloc());
        if row.starts_with("#") {
            line.push_str(row)?;
        } else if answer(&mut line, rt.alloc(), name, row).is_err() {
            line.push_str("no row")?;
        }
        println!(rt; "{line}")?;
    }
    Ok(())
}

/// The words are names of tables.
fn main(rt: HostRuntime) -> ExitCode {
    let Ok(args) = env::args(&rt) else {
        return ExitCode::from(1);
    };
    for name in args.skip(1) {
        if table(&rt, name.as_str()).is_err() {
            return ExitCode::from(1);
        }
    }
    ExitCode::from(0)
}
