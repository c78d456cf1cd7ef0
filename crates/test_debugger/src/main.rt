//! What a debugger's commands are and what it writes, for the rows of tables.
#![tactic(auto)]

mod answers;
mod events;
mod files;
mod frames;
mod no_row;
mod sessions;
mod words;

use no_row::NoRow;
use pt_commands::Command;
use std::alloc::Global;
use std::process::ExitCode;
use test_notation::{Kind, Printed, answer_tables};

/// What the rows of a table are.
#[derive(Clone, Copy)]
enum Rows {
    /// Lines of commands.
    Commands,
    /// The frames of a run.
    Frames,
    /// Single answers.
    Answers,
    /// Files of commands.
    Files,
    /// Events of a run, and lines of commands at them.
    Sessions,
}

fn write_command(out: &mut String, alloc: Global, row: &str) -> Result<(), NoRow> {
    let line = words::text(alloc, row)?;
    let command = Command::parse(alloc, line.as_str())?;
    write!(out, "{command:?}")?;
    Ok(())
}

fn write_row(out: &mut String, alloc: Global, rows: Rows, row: &str) -> Result<(), NoRow> {
    let mut bytes = Vec::new(alloc);
    match rows {
        Rows::Commands => return write_command(out, alloc, row),
        Rows::Frames => frames::write(&mut bytes, alloc, row)?,
        Rows::Answers => answers::write(&mut bytes, alloc, row)?,
        Rows::Files => files::write(&mut bytes, alloc, row)?,
        Rows::Sessions => sessions::write(&mut bytes, alloc, row)?,
    }
    write!(out, "{}", bytes.as_slice().escape_ascii())?;
    Ok(())
}

impl Kind for Rows {
    fn named(word: &str) -> Option<Rows> {
        match word {
            "commands" => Some(Rows::Commands),
            "frames" => Some(Rows::Frames),
            "answers" => Some(Rows::Answers),
            "files" => Some(Rows::Files),
            "sessions" => Some(Rows::Sessions),
            _ => None,
        }
    }

    fn between(self) -> &'static str {
        "\n"
    }

    fn answer(self, out: &mut String, alloc: Global, row: &str) -> Printed {
        if write_row(out, alloc, self, row).is_err() {
            out.push_str("no row")?;
        }
        Ok(())
    }

    fn is_taken(self, _alloc: Global, _text: &[u8]) -> bool {
        false
    }
}

fn main(rt: HostRuntime) -> ExitCode {
    answer_tables::<Rows, HostRuntime>(&rt)
}
