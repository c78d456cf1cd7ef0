//! What the benchmark of compiling times: from the text of a script to its code.
#![tactic(auto)]

use pt_base::{Failure, Memory};
use pt_compile::compile;
use pt_front::front;
use std::alloc::Global;
use std::process::ExitCode;
use std::{env, fs};

/// The most bytes of a text that is timed.
const TEXT_LIMIT: usize = 16_777_216;

/// How many blocks the code of a text has; none, where it is no script.
fn blocks(alloc: Global, text: &[u8]) -> Result<usize, Memory> {
    if text.len() > TEXT_LIMIT {
        return Ok(0);
    }
    match front(alloc, text) {
        Ok((script, _)) => Ok(compile(alloc, &script)?.blocks.len()),
        Err(Failure::Refused(_)) => Ok(0),
        Err(Failure::Memory) => Err(Memory),
    }
}

/// The word is the name of a script, whose code is made.
fn main(rt: HostRuntime) -> ExitCode {
    let Ok(mut args) = env::args(&rt) else {
        return ExitCode::from(1);
    };
    let _program = args.next();
    let Some(name) = args.next() else {
        return ExitCode::from(1);
    };
    let Ok(text) = fs::read(&rt, name.as_str()) else {
        return ExitCode::from(1);
    };
    match blocks(rt.alloc(), text.as_slice()) {
        Ok(0) => ExitCode::from(1),
        Ok(_) => ExitCode::from(0),
        Err(_) => ExitCode::from(1),
    }
}
