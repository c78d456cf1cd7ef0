//! A row of generators is words: `+` makes one, whose activation is 10 and its number; `n0`,
//! `s0:5`, `s0:None`, `t0` and `c0` resume generator 0 by next, send, throw and close; `y0` suspends
//! it, `f0` finishes it, and `?0` asks for its state.

ghost use Rattle.std.specs.Prelude.{◌<◌, length, IfOk};

use crate::no_row::NoRow;
use pt_gen::{GenErr, GenState, Gens, How};
use pt_heap::Value;
use std::alloc::Global;

/// The generator that a word names.
fn number(gens: &Gens<u32>, word: &str) -> Result<u32, NoRow>
    ensures { IfOk result (λ n. n < length gens.now) }
{
    match word.parse::<u32>() {
        Ok(n) => {
            if n as usize >= gens.len() {
                return Err(NoRow);
            }
            Ok(n)
        }
        Err(_) => Err(NoRow),
    }
}

fn show(line: &mut String, alloc: Global, number: u32) -> Result<(), NoRow> {
    let digits = format!(in alloc; "{number}")?;
    line.push_str(digits.as_str())?;
    Ok(())
}

fn error_name(error: GenErr) -> &'static str {
    match error {
        GenErr::Running => "Running",
        GenErr::SendEarly => "SendEarly",
        GenErr::Done => "Done",
    }
}

fn state_name(state: GenState) -> &'static str {
    match state {
        GenState::Fresh => "Fresh",
        GenState::Suspended => "Suspended",
        GenState::Running => "Running",
        GenState::Finished => "Finished",
    }
}

/// Resumes a generator, and writes its activation or why it isn't resumed.
fn resume(
    line: &mut String,
    alloc: Global,
    gens: &mut Gens<u32>,
    word: &str,
    how: How,
) -> Result<(), NoRow> {
    let n = number(gens, word)?;
    match gens.begin(n, how) {
        Ok(activation) => show(line, alloc, activation),
        Err(error) => {
            line.push_str(error_name(error))?;
            Ok(())
        }
    }
}

fn send(line: &mut String, alloc: Global, gens: &mut Gens<u32>, rest: &str) -> Result<(), NoRow> {
    match rest.split_once(":") {
        Some((word, "None")) => resume(line, alloc, gens, word, How::Send(Value::None)),
        Some((word, value)) => match value.parse::<i128>() {
            Ok(value) => resume(line, alloc, gens, word, How::Send(Value::Int(value))),
            Err(_) => Err(NoRow),
        },
        None => Err(NoRow),
    }
}

/// Suspends a generator that runs, or finishes it.
fn stop(line: &mut String, gens: &mut Gens<u32>, word: &str, yields: bool) -> Result<(), NoRow> {
    let n = number(gens, word)?;
    match gens.state(n) {
        GenState::Running => {
            if yields {
                gens.suspend(n, n.wrapping_add(10));
            } else {
                gens.finish(n);
            }
            line.push_str(".")?;
            Ok(())
        }
        _ => Err(NoRow),
    }
}

/// Does what a word says, and writes the answer.
fn answer(line: &mut String, alloc: Global, gens: &mut Gens<u32>, word: &str) -> Result<(), NoRow> {
    if word == "+" {
        let count = gens.len();
        if count > 1_000 {
            return Err(NoRow);
        }
        let n = gens.add(count as u32 + 10)?;
        return show(line, alloc, n);
    }
    if let Some(rest) = word.strip_prefix("n") {
        return resume(line, alloc, gens, rest, How::Next);
    }
    if let Some(rest) = word.strip_prefix("s") {
        return send(line, alloc, gens, rest);
    }
    if let Some(rest) = word.strip_prefix("t") {
        return resume(line, alloc, gens, rest, How::Throw(Value::None));
    }
    if let Some(rest) = word.strip_prefix("c") {
        return resume(line, alloc, gens, rest, How::Close);
    }
    if let Some(rest) = word.strip_prefix("y") {
        return stop(line, gens, rest, true);
    }
    if let Some(rest) = word.strip_prefix("f") {
        return stop(line, gens, rest, false);
    }
    if let Some(rest) = word.strip_prefix("?") {
        let n = number(gens, rest)?;
        line.push_str(state_name(gens.state(n)))?;
        return Ok(());
    }
    Err(NoRow)
}

pub fn answers(line: &mut String, alloc: Global, row: &str) -> Result<(), NoRow> {
    let mut gens = Gens::new(alloc);
    let mut is_first = true;
    for word in row.split_whitespace() {
        if !is_first {
            line.push_str(" ")?;
        }
        is_first = false;
        answer(line, alloc, &mut gens, word)?;
    }
    Ok(())
}
