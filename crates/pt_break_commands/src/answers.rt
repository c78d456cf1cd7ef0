//! What is answered to commands on breakpoints.
ghost use Rattle.std.specs.Prelude.{◌≡◌, ◌<◌, IfOk, OnOk, OnErr};
ghost use Rattle.pt_break_commands.specs.BreakCommands.{clear_answer, condition_answer};
ghost use Rattle.pt_break_commands.specs.BreakCommands.{condition_told, enable_answer};
ghost use Rattle.pt_break_commands.specs.BreakCommands.{enable_told, ignore_answer, set_answer};
ghost use Rattle.pt_break_commands.specs.BreakCommands.{with_set};

use pt_base::{Line, Memory, Text};
use pt_bdb::{BreakErr, Breaks, LAST_NUMBER};
use pt_pdb::BreakAnswer;

/// Sets a breakpoint: what is answered.
pub fn answer_of_set(
    breaks: &mut Breaks,
    line: Line,
    temporary: bool,
    condition: Option<Text>,
) -> Result<BreakAnswer, Memory>
    requires { breaks.old.last < LAST_NUMBER }
    ensures answer { IfOk result (λ answer. answer ≡ set_answer breaks.old line) }
    ensures ok { OnOk result (breaks.new ≡ with_set line temporary condition breaks.old) }
    ensures err { OnErr result (breaks.new ≡ breaks.old) }
{
    match breaks.set(line, temporary, condition) {
        Ok(number) => Ok(BreakAnswer::Set { number, line }),
        Err(BreakErr::NoCode { .. }) => Ok(BreakAnswer::NoCode { line }),
        Err(_) => Err(Memory),
    }
}

/// What is answered where a breakpoint is deleted.
pub fn clear_answer(breaks: &Breaks, number: u32) -> BreakAnswer
    ensures { result ≡ clear_answer number breaks.now }
{
    match breaks.row(number) {
        Some(row) => BreakAnswer::Deleted {
            number,
            line: row.line,
        },
        None => BreakAnswer::NoBreakpoint { number },
    }
}

fn condition_told(number: u32, condition: &Option<Text>) -> BreakAnswer
    ensures { result ≡ condition_told number condition.now }
{
    match condition {
        Some(_) => BreakAnswer::NewCondition { number },
        None => BreakAnswer::Unconditional { number },
    }
}

/// What is answered where a breakpoint gets a condition, or loses its own.
pub fn condition_answer(breaks: &Breaks, number: u32, condition: &Option<Text>) -> BreakAnswer
    ensures { result ≡ condition_answer number condition.now breaks.now }
{
    match breaks.row(number) {
        Some(_) => condition_told(number, condition),
        None => BreakAnswer::NoBreakpoint { number },
    }
}

/// What is answered where crossings of a breakpoint are to be ignored.
pub fn ignore_answer(breaks: &Breaks, number: u32, count: u64) -> BreakAnswer
    ensures { result ≡ ignore_answer number count breaks.now }
{
    match breaks.row(number) {
        Some(_) => BreakAnswer::Ignored { number, count },
        None => BreakAnswer::NoBreakpoint { number },
    }
}

fn enable_told(number: u32, on: bool, line: Line) -> BreakAnswer
    ensures { result ≡ enable_told number on line }
{
    if on {
        BreakAnswer::Enabled { number, line }
    } else {
        BreakAnswer::Disabled { number, line }
    }
}

/// What is answered where a breakpoint is switched on or off.
pub fn enable_answer(breaks: &Breaks, number: u32, on: bool) -> BreakAnswer
    ensures { result ≡ enable_answer number on breaks.now }
{
    match breaks.row(number) {
        Some(row) => enable_told(number, on, row.line),
        None => BreakAnswer::NoBreakpoint { number },
    }
}
