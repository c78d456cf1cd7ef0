//! Commands on breakpoints.
ghost use Rattle.std.specs.Prelude.{◌≡◌, ◌++◌, ◌<◌, OnOk};
ghost use Rattle.pt_sessions.specs.OnBreakpoints.{break_text, table_behind};

use pt_base::Memory;
use pt_bdb::{Breaks, LAST_NUMBER};
use pt_break_commands::{clear, clear_all, condition, enable, ignore, set};
use pt_breakpoints_text::push_breakpoints;
use pt_commands::Command;
use std::alloc::Global;

/// Does a command on breakpoints, and writes the answer. Another command does nothing.
pub fn take(
    alloc: Global,
    out: &mut Vec<u8>,
    file: &str,
    breaks: &mut Breaks,
    command: Command,
) -> Result<(), Memory>
    requires { breaks.old.last < LAST_NUMBER }
    ensures text { OnOk result (out.new.items
        ≡ out.old.items ++ break_text file.now breaks.old command) }
    ensures ok { OnOk result (breaks.new ≡ table_behind command breaks.old) }
{
    match command {
        Command::Break {
            line,
            temporary,
            condition,
        } => { set(alloc, out, file, breaks, line, temporary, condition) }
        Command::List => push_breakpoints(alloc, out, file, breaks.rows()),
        Command::Clear { number } => clear(alloc, out, file, breaks, number),
        Command::ClearAll => clear_all(alloc, out, file, breaks),
        Command::Condition {
            number,
            condition: text,
        } => { condition(alloc, out, file, breaks, number, text) }
        Command::Ignore { number, count } => ignore(alloc, out, file, breaks, number, count),
        Command::Enable { number, on } => enable(alloc, out, file, breaks, number, on),
        _ => Ok(()),
    }
}
