//! A row of tools is calls between `; `: `use 3 a`, `free 3`, `name 3`, `get 3`, `local 3 BLOCK`,
//! `set 3 BITS`, `set_local 3 BLOCK BITS`, `register 3 BITS f`, `restart`, and of the run
//! `due 3 BIT BLOCK ACT`, `disable 3 BIT BLOCK ACT`, `mask BLOCK`. A function is an integer, or `-`.
use crate::no_row::NoRow;
use crate::words::{Answered, integer, number, show_done, show_some, show_value, value};
use pt_base::{ActNo, BlockId, Text};
use pt_heap::Value;
use pt_monitor::{EVENTS, MonEvent, ToolErr, Tools};
use std::alloc::Global;

fn block(word: &str) -> Result<BlockId, NoRow> {
    Ok(BlockId(number(word)?))
}

/// A tool, an event, a block and an act.
fn place(words: &[&str]) -> Result<(u8, MonEvent, BlockId, ActNo), NoRow> {
    let [tool, bit, at, act] = words else {
        return Err(NoRow);
    };
    let tool = tool.parse::<u8>().map_err(|_| NoRow)?;
    let bit = number(bit)?;
    for event in EVENTS {
        if event.bit() == bit {
            return Ok((tool, event, block(at)?, ActNo(number(act)?)));
        }
    }
    Err(NoRow)
}

fn refusal(line: &mut String, error: ToolErr) -> Answered {
    line.push_str(match error {
        ToolErr::InUse => " InUse",
        ToolErr::BadId => " BadId",
        ToolErr::NotInUse => " NotInUse",
        ToolErr::BadSet => " BadSet",
        ToolErr::NotLocal => " NotLocal",
        ToolErr::Memory => " Memory",
    })?;
    Ok(())
}

fn done(line: &mut String, answer: Result<(), ToolErr>) -> Answered {
    match answer {
        Ok(()) => show_done(line),
        Err(error) => refusal(line, error),
    }
}

fn told(line: &mut String, answer: Result<u32, ToolErr>) -> Answered {
    match answer {
        Ok(bits) => show_value(line, Value::Int(i128::from(bits))),
        Err(error) => refusal(line, error),
    }
}

fn named(line: &mut String, answer: Result<Option<Text>, ToolErr>) -> Answered {
    match answer {
        Ok(Some(name)) => {
            line.push_str(" ")?;
            line.push_str(name.as_str())?;
            Ok(())
        }
        Ok(None) => show_some(line, None),
        Err(error) => refusal(line, error),
    }
}

fn before(line: &mut String, answer: Result<Value, ToolErr>) -> Answered {
    match answer {
        Ok(f) => show_value(line, f),
        Err(error) => refusal(line, error),
    }
}

/// Does a call of sys.monitoring, and writes its answer.
fn call(line: &mut String, alloc: Global, tools: &mut Tools, words: &[&str]) -> Answered {
    match words {
        ["use", id, name] => {
            let name = Text::from_str(alloc, name)?;
            done(line, tools.use_id(integer(id)?, name))
        }
        ["free", id] => done(line, tools.free_id(integer(id)?)),
        ["name", id] => named(line, tools.name_of(alloc, integer(id)?)),
        ["get", id] => told(line, tools.get(integer(id)?)),
        ["local", id, at] => told(line, tools.get_local(integer(id)?, block(at)?)),
        ["set", id, bits] => done(line, tools.set(integer(id)?, integer(bits)?)),
        ["set_local", id, at, bits] => {
            let answer = tools.set_local(integer(id)?, block(at)?, integer(bits)?);
            done(line, answer)
        }
        ["register", id, bits, f] => {
            let answer = tools.register(integer(id)?, integer(bits)?, value(f)?);
            before(line, answer)
        }
        _ => asked(line, tools, words),
    }
}

/// Does what a run asks, and writes the answer.
fn asked(line: &mut String, tools: &mut Tools, words: &[&str]) -> Answered {
    match words {
        ["restart"] => {
            tools.restart();
            show_done(line)
        }
        ["mask", at] => told(line, Ok(tools.mask(block(at)?).0)),
        ["due", rest @ ..] => {
            let (tool, event, at, act) = place(rest)?;
            show_some(line, tools.due(tool, event, at, act))
        }
        ["disable", rest @ ..] => {
            let (tool, event, at, act) = place(rest)?;
            done(line, tools.disable(tool, event, at, act))
        }
        _ => Err(NoRow),
    }
}

/// Writes the answers to the calls of a row.
pub fn answers(line: &mut String, alloc: Global, row: &str) -> Answered {
    let mut tools = Tools::new(alloc);
    for part in row.split("; ") {
        let mut words = Vec::new(alloc);
        for word in part.split(" ") {
            words.push(word)?;
        }
        call(line, alloc, &mut tools, words.as_slice())?;
    }
    Ok(())
}
