//! Which command a line is.
ghost use Rattle.std.specs.Prelude.{◌≡◌, IfOk};
ghost use Rattle.pt_commands.specs.Commands.{alone, break_always, break_if, break_on};
ghost use Rattle.pt_commands.specs.Commands.{break_or_list, clear_on, command_in, command_of};
ghost use Rattle.pt_commands.specs.Commands.{command_on, condition_by, condition_on, count_of};
ghost use Rattle.pt_commands.specs.Commands.{enable_on, ignore_on, jump_on, print_on, until_on};
ghost use Rattle.pt_commands.specs.Parts.{behind_word, first_word};

use crate::Command;
use crate::numbers::{count, number};
use crate::parts::{Part, cut, trimmed, without_end, without_front};
use crate::verb::{Verb, verb_named};
use pt_base::{Line, Memory, Text};
use std::alloc::Global;

/// A command that stands alone.
fn alone(command: Command, rest: &str) -> Command
    ensures { result ≡ alone command rest.now }
{
    if rest.is_empty() {
        command
    } else {
        Command::Bad
    }
}

fn break_always(temporary: bool, line: Option<u32>) -> Command
    ensures { result ≡ break_always temporary line }
{
    match line {
        Some(line) => Command::Break {
            line: Line(line),
            temporary,
            condition: None,
        },
        None => Command::Bad,
    }
}

fn break_if(
    alloc: Global,
    temporary: bool,
    line: Option<u32>,
    condition: &str,
) -> Result<Command, Memory>
    ensures { IfOk result (λ c. c ≡ break_if temporary line condition.now) }
{
    let Some(line) = line else {
        return Ok(Command::Bad);
    };
    if condition.is_empty() {
        return Ok(Command::Bad);
    }
    let condition = Text::from_str(alloc, condition)?;
    Ok(Command::Break {
        line: Line(line),
        temporary,
        condition: Some(condition),
    })
}

/// `break` and `tbreak` with a line.
fn break_on(alloc: Global, temporary: bool, rest: &str) -> Result<Command, Memory>
    ensures { IfOk result (λ c. c ≡ break_on temporary rest.now) }
{
    let (line, from_comma) = cut(Part::Item, rest);
    let line = number(without_end(line));
    match from_comma.strip_prefix(',') {
        Some(condition) => break_if(alloc, temporary, line, without_front(condition)),
        None => Ok(break_always(temporary, line)),
    }
}

fn break_or_list(alloc: Global, rest: &str) -> Result<Command, Memory>
    ensures { IfOk result (λ c. c ≡ break_or_list rest.now) }
{
    if rest.is_empty() {
        return Ok(Command::List);
    }
    break_on(alloc, false, rest)
}

fn clear_on(rest: &str) -> Command
    ensures { result ≡ clear_on rest.now }
{
    if rest.is_empty() {
        return Command::ClearAll;
    }
    match number(rest) {
        Some(number) => Command::Clear { number },
        None => Command::Bad,
    }
}

/// The first word of what stands behind a command's, and what stands behind that.
fn first_word(text: &str) -> (&str, &str)
    ensures word { result.0.now ≡ first_word text.now }
    ensures behind { result.1.now ≡ behind_word text.now }
{
    let (word, rest) = cut(Part::Word, text);
    (word, without_front(rest))
}

fn condition_by(alloc: Global, number: Option<u32>, condition: &str) -> Result<Command, Memory>
    ensures { IfOk result (λ c. c ≡ condition_by number condition.now) }
{
    let Some(number) = number else {
        return Ok(Command::Bad);
    };
    if condition.is_empty() {
        return Ok(Command::Condition {
            number,
            condition: None,
        });
    }
    let condition = Text::from_str(alloc, condition)?;
    Ok(Command::Condition {
        number,
        condition: Some(condition),
    })
}

fn condition_on(alloc: Global, rest: &str) -> Result<Command, Memory>
    ensures { IfOk result (λ c. c ≡ condition_on rest.now) }
{
    let (word, condition) = first_word(rest);
    condition_by(alloc, number(word), condition)
}

/// How many crossings are ignored, none where no count is given.
fn count_of(text: &str) -> Option<u64>
    ensures { result ≡ count_of text.now }
{
    if text.is_empty() {
        return Some(0);
    }
    count(text)
}

fn ignore_on(rest: &str) -> Command
    ensures { result ≡ ignore_on rest.now }
{
    let (word, rest) = first_word(rest);
    match (number(word), count_of(rest)) {
        (Some(number), Some(count)) => Command::Ignore { number, count },
        _ => Command::Bad,
    }
}

fn enable_on(on: bool, rest: &str) -> Command
    ensures { result ≡ enable_on on rest.now }
{
    match number(rest) {
        Some(number) => Command::Enable { number, on },
        None => Command::Bad,
    }
}

fn until_on(rest: &str) -> Command
    ensures { result ≡ until_on rest.now }
{
    if rest.is_empty() {
        return Command::Until { line: None };
    }
    match number(rest) {
        Some(line) => Command::Until {
            line: Some(Line(line)),
        },
        None => Command::Bad,
    }
}

fn jump_on(rest: &str) -> Command
    ensures { result ≡ jump_on rest.now }
{
    match number(rest) {
        Some(line) => Command::Jump { line: Line(line) },
        None => Command::Bad,
    }
}

fn print_on(alloc: Global, rest: &str) -> Result<Command, Memory>
    ensures { IfOk result (λ c. c ≡ print_on rest.now) }
{
    if rest.is_empty() {
        return Ok(Command::Bad);
    }
    let expression = Text::from_str(alloc, rest)?;
    Ok(Command::Print { expression })
}

fn command_of(alloc: Global, verb: Verb, rest: &str) -> Result<Command, Memory>
    ensures { IfOk result (λ c. c ≡ command_of verb rest.now) }
{
    match verb {
        Verb::Break => break_or_list(alloc, rest),
        Verb::TemporaryBreak => break_on(alloc, true, rest),
        Verb::Clear => Ok(clear_on(rest)),
        Verb::Condition => condition_on(alloc, rest),
        Verb::Ignore => Ok(ignore_on(rest)),
        Verb::Enable => Ok(enable_on(true, rest)),
        Verb::Disable => Ok(enable_on(false, rest)),
        Verb::Step => Ok(alone(Command::Step, rest)),
        Verb::Next => Ok(alone(Command::Next, rest)),
        Verb::Until => Ok(until_on(rest)),
        Verb::Return => Ok(alone(Command::Return, rest)),
        Verb::Continue => Ok(alone(Command::Continue, rest)),
        Verb::Jump => Ok(jump_on(rest)),
        Verb::Up => Ok(alone(Command::Up, rest)),
        Verb::Down => Ok(alone(Command::Down, rest)),
        Verb::Where => Ok(alone(Command::Where, rest)),
        Verb::Args => Ok(alone(Command::Args, rest)),
        Verb::Print => print_on(alloc, rest),
        Verb::Quit => Ok(alone(Command::Quit, rest)),
    }
}

fn command_in(alloc: Global, text: &str) -> Result<Command, Memory>
    ensures { IfOk result (λ c. c ≡ command_in text.now) }
{
    let (word, rest) = first_word(text);
    match verb_named(word) {
        Some(verb) => command_of(alloc, verb, rest),
        None => Ok(Command::Bad),
    }
}

impl Command {
    /// The command that a line is: `Bad` where it is none, and `Repeat` where it is empty.
    ///
    /// # Errors
    ///
    /// `Memory` for want of it.
    pub fn parse(alloc: Global, line: &str) -> Result<Command, Memory>
        ensures { IfOk result (λ c. c ≡ command_on line.now) }
    {
        if line.is_empty() {
            return Ok(Command::Repeat);
        }
        command_in(alloc, trimmed(line))
    }
}
