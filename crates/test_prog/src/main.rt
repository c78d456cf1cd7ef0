//! What `top` answers of tables of calls, over a shelf and sinks in memory: the exit status and the
//! end, and what out and the log have taken, each piece behind a bar.
#![tactic(auto)]

mod calls;
mod notation;
mod rows;

use std::process::ExitCode;
use std::{env, fs, io};

/// Prints a line for each row of a table; a comment stands as it is.
fn table(rt: &HostRuntime, name: &str) -> io::Result<()> {
    let text = fs::read_to_string(rt, name)?;
    for row in text.as_str().lines() {
        let mut line = String::new(rt.alloc());
        if row.starts_with("#") {
            line.push_str(row)?;
        } else if calls::answer(&mut line, rt.alloc(), row).is_err() {
            line.push_str("no row")?;
        }
        println!(rt; "{line}")?;
    }
    Ok(())
}

/// The words are names of tables.
fn main(rt: HostRuntime) -> ExitCode {
    let Ok(args) = env::args(&rt) else {
        return ExitCode::from(1);
    };
    for name in args.skip(1) {
        if table(&rt, name.as_str()).is_err() {
            return ExitCode::from(1);
        }
    }
    ExitCode::from(0)
}
