//! What is told of code files, which stand in tables in hex: how many slots their places get, what
//! is refused by places and sizes, under which handler row cuts differ, and which slots are the same
//! at two places.
#![tactic(auto)]

mod blocks;
mod common;
mod cuts;
mod limits;

use blocks::{NoRow, sizes_in};
use common::common_in;
use cuts::cuts_in;
use limits::limits_in;
use pt_code::Code;
use std::alloc::Global;
use std::process::ExitCode;
use std::{env, fs, io};

fn code_of(alloc: Global, digits: &str) -> Result<Code, NoRow> {
    let bytes = hex::decode(alloc, digits).map_err(|_| NoRow)?;
    pt_code::read(alloc, bytes.as_slice()).map_err(|_| NoRow)
}

/// Writes what is told of each block of a code file, by the name of the table.
fn answer(line: &mut String, alloc: Global, name: &str, row: &str) -> Result<(), NoRow> {
    let code = code_of(alloc, row)?;
    for block in code.blocks.as_slice() {
        match name {
            "common.txt" => common_in(line, alloc, &code, block)?,
            "cuts.txt" => cuts_in(line, alloc, &code, block)?,
            "limits.txt" => limits_in(line, alloc, &code, block)?,
            _ => sizes_in(line, alloc, &code, block)?,
        }
    }
    Ok(())
}

/// Prints what is answered of each row of a table; a comment stands as it is.
fn table(rt: &HostRuntime, name: &str) -> io::Result<()> {
    let text = fs::read_to_string(rt, name)?;
    for row in text.as_str().lines() {
        let mut line = String::new(rt.alloc());
        if row.starts_with("#") {
            line.push_str(row)?;
        } else if answer(&mut line, rt.alloc(), name, row).is_err() {
            line.push_str("no row")?;
        }
        println!(rt; "{line}")?;
    }
    Ok(())
}

/// The words are names of tables.
fn main(rt: HostRuntime) -> ExitCode {
    let Ok(args) = env::args(&rt) else {
        return ExitCode::from(1);
    };
    for name in args.skip(1) {
        if table(&rt, name.as_str()).is_err() {
            return ExitCode::from(1);
        }
    }
    ExitCode::from(0)
}
