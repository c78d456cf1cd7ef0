use crate::words::Printed;
use std::alloc::Global;
use std::process::ExitCode;
use std::rt::{Env, Files};
use std::{env, fs, io};

/// What a program is asked of the rows of a table.
pub trait Kind: Copy {
    /// The kind that a word of the command line names.
    fn named(word: &str) -> Option<Self>;

    /// What stands between two rows.
    fn between(self) -> &'static str;

    /// Writes the answer to a row.
    fn answer(self, out: &mut String, alloc: Global, row: &str) -> Printed;

    /// Whether a text has what is asked.
    fn is_taken(self, alloc: Global, text: &[u8]) -> bool;
}

/// Prints a line for each row of a table.
fn print_table<K: Kind, R: Files + Print + AllocGlobal>(
    rt: &R,
    kind: K,
    name: &str,
) -> io::Result<()> {
    let text = fs::read_to_string(rt, name)?;
    for row in text.as_str().split_terminator(kind.between()) {
        let mut line = String::new(rt.alloc());
        kind.answer(&mut line, rt.alloc(), row)?;
        println!(rt; "{line}")?;
    }
    Ok(())
}

/// Reads a file as what is asked, for a clock outside.
fn read_file<K: Kind, R: Files + AllocGlobal>(rt: &R, kind: K, name: &str) -> io::Result<()> {
    let text = fs::read(rt, name)?;
    if kind.is_taken(rt.alloc(), text.as_slice()) {
        Ok(())
    } else {
        Err(io::Error::from(io::ErrorKind::InvalidData))
    }
}

/// Whether a file could be read as what is asked, and its answers printed.
fn is_done<K: Kind, R: Files + Print + AllocGlobal>(
    rt: &R,
    is_timed: bool,
    kind: K,
    name: &str,
) -> bool {
    if is_timed {
        read_file(rt, kind, name).is_ok()
    } else {
        print_table(rt, kind, name).is_ok()
    }
}

/// Prints a line for each row of tables. The words of the command line are a kind and the name of a
/// table, and so on. With `time` before them nothing is printed, and each table is one text. The status
/// is 1 where a word is no kind, a table can't be read, or such a text hasn't what is asked.
pub fn answer_tables<K: Kind, R: Env + Files + Print + AllocGlobal>(rt: &R) -> ExitCode {
    let Ok(args) = env::args(rt) else {
        return ExitCode::from(1);
    };
    let mut is_timed = false;
    let mut asked: Option<K> = None;
    for word in args.skip(1) {
        match asked {
            Some(kind) => {
                if !is_done(rt, is_timed, kind, word.as_str()) {
                    return ExitCode::from(1);
                }
                asked = None;
            }
            None => match word.as_str() {
                "time" => is_timed = true,
                name => match K::named(name) {
                    Some(kind) => asked = Some(kind),
                    None => return ExitCode::from(1),
                },
            },
        }
    }
    ExitCode::from(0)
}
