//! What is read of tables of code files and of instructions in hex, and whether it is written as it
//! was read.
#![tactic(auto)]

mod files;
mod instructions;
mod listings;
mod notation;

use files::Files;
use notation::NoRow;
use std::alloc::Global;
use std::process::ExitCode;
use std::{env, fs, io};

/// Writes what is answered of a row, which begins with `instr`, `effect`, `file`, `cut` or `listing`,
/// or tells changes of the last file.
fn answer(line: &mut String, alloc: Global, files: &mut Files, row: &str) -> Result<(), NoRow> {
    match row.split_once(" ") {
        Some(("instr", rest)) => instructions::decoded(line, alloc, rest),
        Some(("effect", rest)) => instructions::effects(line, alloc, rest),
        Some(("file", rest)) => files.take(line, alloc, rest),
        None if row == "cut" => files.cut(line, alloc),
        None if row == "listing" => files.listing(line, alloc),
        _ => files.changed(line, alloc, row),
    }
}

/// Prints what is answered of each row of a table; a comment stands as it is.
fn table(rt: &HostRuntime, name: &str) -> io::Result<()> {
    let text = fs::read_to_string(rt, name)?;
    let mut files = Files::new(rt.alloc());
    for row in text.as_str().lines() {
        let mut line = String::new(rt.alloc());
        if row.starts_with("#") {
            line.push_str(row)?;
        } else if answer(&mut line, rt.alloc(), &mut files, row).is_err() {
            line.push_str("no row")?;
        }
        println!(rt; "{line}")?;
    }
    Ok(())
}

/// The words are names of tables.
fn main(rt: HostRuntime) -> ExitCode {
    let Ok(args) = env::args(&rt) else {
        return ExitCode::from(1);
    };
    for name in args.skip(1) {
        if table(&rt, name.as_str()).is_err() {
            return ExitCode::from(1);
        }
    }
    ExitCode::from(0)
}
