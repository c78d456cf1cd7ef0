//! What the benchmark of values times: searches and replacements in long texts, entries of a
//! dictionary, and objects of a heap.
#![tactic(auto)]

use pt_base::{BinOp, Dup, Memory, Seq, Text};
use pt_dicts::combine;
use pt_heap::{Dict, DictErr, Heap, Key, Object, Seed, Value};
use pt_strs::{find, repeat, replace};
use std::alloc::Global;
use std::env;
use std::process::ExitCode;

/// A letter so many times.
fn letters(alloc: Global, size: u32) -> Result<Text, Memory> {
    let letter = Text::from_str(alloc, "a")?;
    match repeat(alloc, &letter, size as i128) {
        Ok(text) => Ok(text),
        Err(_) => Err(Memory),
    }
}

/// A thousand of the letter and another behind them, which a search meets late at each place.
fn hostile(alloc: Global) -> Result<Text, Memory> {
    let mut part = letters(alloc, 1000)?;
    part.push_str("b")?;
    Ok(part)
}

/// Seeks what isn't there in a text of one letter.
fn search(alloc: Global, size: u32) -> Result<bool, Memory> {
    let text = letters(alloc, size)?;
    let part = hostile(alloc)?;
    Ok(find(&text, &part).is_none())
}

/// Replaces what isn't there, and then each letter.
fn substitute(alloc: Global, size: u32) -> Result<bool, Memory> {
    let text = letters(alloc, size)?;
    let part = hostile(alloc)?;
    let letter = Text::from_str(alloc, "a")?;
    let other = Text::from_str(alloc, "xy")?;
    let Ok(same) = replace(alloc, &text, &part, &other) else {
        return Err(Memory);
    };
    let Ok(longer) = replace(alloc, &same, &letter, &other) else {
        return Err(Memory);
    };
    Ok(longer.len() / 2 == size as usize)
}

fn key(alloc: Global, number: u32) -> Result<Key, Memory> {
    Ok(Key::new(Seq::from_slice(alloc, number.to_le_bytes().as_slice())?))
}

/// A dictionary of so many entries.
fn filled(alloc: Global, count: u32) -> Result<Dict, Memory> {
    let mut dict = Dict::new(alloc, Seed::of(b"entries"));
    for number in 0..count {
        let key = key(alloc, number)?;
        if dict.insert(key, Value::None, Value::Bool(true)).is_err() {
            return Err(Memory);
        }
    }
    Ok(dict)
}

/// Puts so many entries into a dictionary.
fn insert(alloc: Global, count: u32) -> Result<bool, Memory> {
    Ok(filled(alloc, count)?.len() == count)
}

/// Puts so many in, and asks for each.
fn get(alloc: Global, count: u32) -> Result<bool, Memory> {
    let dict = filled(alloc, count)?;
    for number in 0..count {
        let key = key(alloc, number)?;
        if dict.get(&key).is_none() {
            return Ok(false);
        }
    }
    Ok(true)
}

/// Puts so many in, and takes each out, the first first.
fn emptied(alloc: Global, count: u32) -> Result<Option<Dict>, Memory> {
    let mut dict = filled(alloc, count)?;
    for number in 0..count {
        let key = key(alloc, number)?;
        if dict.remove(&key).is_none() {
            return Ok(None);
        }
    }
    Ok(Some(dict))
}

/// Puts so many in, and takes them out.
fn remove(alloc: Global, count: u32) -> Result<bool, Memory> {
    match emptied(alloc, count)? {
        Some(dict) => Ok(dict.len() == 0),
        None => Ok(false),
    }
}

/// Puts so many in, takes them out, and then puts as many in with each taken out before the next.
fn refill(alloc: Global, count: u32) -> Result<bool, Memory> {
    let Some(mut dict) = emptied(alloc, count)? else {
        return Ok(false);
    };
    for number in 0..count {
        let again = key(alloc, number)?;
        if dict.insert(again, Value::None, Value::None).is_err() {
            return Err(Memory);
        }
        if dict.remove(&key(alloc, number)?).is_none() {
            return Ok(false);
        }
    }
    Ok(dict.len() == 0)
}

/// Fills a dictionary up, and answers whether it refuses one entry more and no other, also as a set
/// of which another has one item that it lacks.
fn limit(alloc: Global) -> Result<bool, Memory> {
    let mut dict = filled(alloc, 4_194_304)?;
    let there = dict.insert(key(alloc, 0)?, Value::None, Value::None);
    let new = key(alloc, 4_194_304)?;
    let refused = dict.insert(new.dup(alloc)?, Value::None, Value::None);
    let mut one = Dict::new(alloc, dict.seed());
    if one.insert(new, Value::None, Value::None).is_err() {
        return Err(Memory);
    }
    let union = combine(alloc, BinOp::BitOr, &dict, &one);
    let common = combine(alloc, BinOp::BitAnd, &dict, &one);
    Ok(
        there.is_ok()
            && matches!(refused, Err(DictErr::Length))
            && matches!(union, Err(DictErr::Length))
            && common.is_ok(),
    )
}

/// Puts so many objects into a heap.
fn add(alloc: Global, count: u32) -> Result<bool, Memory> {
    let mut heap = Heap::new(alloc, Seed::of(b"objects"));
    for number in 0..count {
        if heap.add(Object::Generator(number)).is_err() {
            return Err(Memory);
        }
    }
    Ok(heap.len() == count)
}

/// Does what a command names, at a size; `limit` has one of its own.
fn run(alloc: Global, command: &str, size: u32) -> Result<bool, Memory> {
    match command {
        "find" => search(alloc, size),
        "replace" => substitute(alloc, size),
        "insert" => insert(alloc, size),
        "get" => get(alloc, size),
        "remove" => remove(alloc, size),
        "refill" => refill(alloc, size),
        "limit" => limit(alloc),
        _ => add(alloc, size),
    }
}

/// Does that so many times.
fn repeat_run(alloc: Global, command: &str, size: u32, turns: u32) -> Result<bool, Memory> {
    for _turn in 0..turns {
        if !run(alloc, command, size)? {
            return Ok(false);
        }
    }
    Ok(true)
}

/// The number that a word is, or another where there is none.
fn number(word: Option<String>, other: u32) -> u32 {
    match word {
        Some(word) => word.as_str().parse::<u32>().unwrap_or(other),
        None => other,
    }
}

/// The words are what is timed, its size, and how many times it is done: `find`, `replace`,
/// `insert`, `get`, `remove`, `refill`, `add` or `limit`.
fn main(rt: HostRuntime) -> ExitCode {
    let Ok(mut args) = env::args(&rt) else {
        return ExitCode::from(1);
    };
    let _program = args.next();
    let Some(command) = args.next() else {
        return ExitCode::from(1);
    };
    let size = number(args.next(), 0);
    let turns = number(args.next(), 1);
    match repeat_run(rt.alloc(), command.as_str(), size, turns) {
        Ok(true) => ExitCode::from(0),
        _ => ExitCode::from(1),
    }
}
