//! What is told of code files, which stand in tables in hex: that their code fits, or why it is
//! refused or no code file, with the number that is told.
#![tactic(auto)]

use pt_code::CodeErr;
use pt_verify::{VerifyErr, verify};
use std::alloc::{AllocError, Global};
use std::process::ExitCode;
use std::{env, fs, io};

/// Writes why bytes are no code file.
fn unread(line: &mut String, error: CodeErr) -> Result<(), AllocError> {
    match error {
        CodeErr::Magic => write!(line, "18 Magic 0")?,
        CodeErr::Version { got } => write!(line, "19 Version {got}")?,
        CodeErr::Truncated { at } => write!(line, "20 Truncated {at}")?,
        CodeErr::Field { at } => write!(line, "21 Field {at}")?,
        CodeErr::Trailing { at } => write!(line, "22 Trailing {at}")?,
        CodeErr::Memory => write!(line, "out of memory")?,
    }
    Ok(())
}

/// Writes why code isn't verified.
fn unverified(line: &mut String, error: VerifyErr) -> Result<(), AllocError> {
    let Some((number, place)) = error.refusal() else {
        write!(line, "out of memory")?;
        return Ok(());
    };
    match error {
        VerifyErr::Stack { block, .. } => {
            write!(line, "{number} Stack block {} pc {place}", block.0)?
        }
        VerifyErr::Kind { block, .. } => write!(
            line,
            "{number} Kind block {} pc {place}",
            block.0
        )?,
        VerifyErr::Target { block, .. } => {
            write!(line, "{number} Target block {} pc {place}", block.0)?
        }
        VerifyErr::Table { block, .. } => {
            write!(line, "{number} Table block {} row {place}", block.0)?
        }
        VerifyErr::SilentLoop { block, .. } => {
            write!(line, "{number} SilentLoop block {} pc {place}", block.0)?
        }
        VerifyErr::Depth { .. } => write!(line, "{number} Depth block {place}")?,
        VerifyErr::Memory => {}
    }
    Ok(())
}

/// Writes what is told of a code file.
fn answer(line: &mut String, alloc: Global, digits: &str) -> Result<(), AllocError> {
    let Ok(bytes) = hex::decode(alloc, digits) else {
        write!(line, "no row")?;
        return Ok(());
    };
    match pt_code::read(alloc, bytes.as_slice()) {
        Err(error) => unread(line, error),
        Ok(code) => match verify(alloc, code) {
            Ok(_) => {
                write!(line, "fits")?;
                Ok(())
            }
            Err(error) => unverified(line, error),
        },
    }
}

/// Prints what is answered of each row of a table; a comment stands as it is.
fn table(rt: &HostRuntime, name: &str) -> io::Result<()> {
    let text = fs::read_to_string(rt, name)?;
    for row in text.as_str().lines() {
        let mut line = String::new(rt.alloc());
        if row.starts_with("#") {
            line.push_str(row)?;
        } else {
            answer(&mut line, rt.alloc(), row)?;
        }
        println!(rt; "{line}")?;
    }
    Ok(())
}

/// The words are names of tables.
fn main(rt: HostRuntime) -> ExitCode {
    let Ok(args) = env::args(&rt) else {
        return ExitCode::from(1);
    };
    for name in args.skip(1) {
        if table(&rt, name.as_str()).is_err() {
            return ExitCode::from(1);
        }
    }
    ExitCode::from(0)
}
