//! The program `pt`: one call, over the real files and streams.
#![tactic(auto)]

use pt_outside::{FileShelf, StreamSink};
use pt_prog::{End, status, top};
use std::io::ErrorKind;
use std::process::ExitCode;
use std::{env, io};

/// The words of the command line behind the program's name.
fn words(rt: &HostRuntime) -> io::Result<Vec<String>> {
    let mut words = Vec::new(rt.alloc());
    let mut args = env::args(rt)?;
    let _program = args.next();
    for word in args {
        words.push(word)?;
    }
    Ok(words)
}

fn main(rt: HostRuntime) -> ExitCode {
    let words = match words(&rt) {
        Ok(words) => words,
        Err(error) => {
            if error.kind() == ErrorKind::OutOfMemory {
                return ExitCode::from(status(&End::Memory));
            }
            // One isn't UTF-8. No words are no command line either, and `top` says so.
            Vec::new(rt.alloc())
        }
    };
    let mut shelf = FileShelf::new(&rt);
    let mut out = StreamSink::new(rt.stdout());
    let mut log = StreamSink::new(rt.stderr());
    let end = top(rt.alloc(), words.as_slice(), &mut shelf, &mut out, &mut log);
    ExitCode::from(status(&end))
}
