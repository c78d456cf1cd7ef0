//! A row of activations is words. `o` opens one with two local names and a cell of its own, and
//! answers its number; `f` does so by `fresh` and `enter`; `v` takes the newest out and opens it
//! again; `z` closes it; `d` goes on with a copy of all. `p5`, `x5` and `r5` push a value, an
//! exception and a raise that is held; `q` pops; `k1` cuts to one slot; `s0` is the slot that none is
//! above, and `e` the active exception. `l0` and `c0` are a local name and a cell, `n:a` a name of
//! the class, `g:a` one of the module and `@0` that at a place; with `=5` behind each is bound, with
//! `=` unbound. `@:a` gives a name of the module a place. `N` and `G` are the names that are bound.

ghost use Rattle.std.specs.Prelude.{◌<◌, length};

use crate::no_row::NoRow;
use pt_base::{BlockId, Dup, Seq, Text};
use pt_bind::Locals;
use pt_frames::{Frames, Place, Purpose, Slot};
use pt_heap::{Binding, Completion, Seed, Value};
use std::alloc::Global;

fn locals(alloc: Global, cell: u32) -> Result<Locals, NoRow> {
    let mut values = Seq::new(alloc);
    values.push(None)?;
    values.push(Some(Value::Int(1)))?;
    let mut cells = Seq::new(alloc);
    cells.push(cell)?;
    Ok(Locals {
        values,
        star: Seq::new(alloc),
        stars: Seq::new(alloc),
        cells,
    })
}

fn number(word: &str) -> Result<u32, NoRow> {
    match word.parse::<u32>() {
        Ok(number) => Ok(number),
        Err(_) => Err(NoRow),
    }
}

fn integer(word: &str) -> Result<Value, NoRow> {
    Ok(Value::Int(number(word)? as i128))
}

/// A value, or none where no word is there.
fn value(word: &str) -> Result<Option<Value>, NoRow> {
    if word.is_empty() {
        return Ok(None);
    }
    Ok(Some(integer(word)?))
}

fn show(line: &mut String, alloc: Global, value: Option<Value>) -> Result<(), NoRow> {
    match value {
        Some(Value::Int(number)) => {
            let digits = format!(in alloc; "{number}")?;
            line.push_str(digits.as_str())?;
            Ok(())
        }
        Some(_) => Err(NoRow),
        None => {
            line.push_str("-")?;
            Ok(())
        }
    }
}

fn show_slot(line: &mut String, alloc: Global, slot: Slot) -> Result<(), NoRow> {
    match slot {
        Slot::Value(value) => show(line, alloc, Some(value)),
        Slot::Exc(value) => {
            line.push_str("x")?;
            show(line, alloc, Some(value))
        }
        Slot::Pending(Completion::Raise(value)) => {
            line.push_str("r")?;
            show(line, alloc, Some(value))
        }
        _ => Err(NoRow),
    }
}

fn show_bindings(line: &mut String, alloc: Global, bindings: &Seq<Binding>) -> Result<(), NoRow> {
    line.push_str("{")?;
    for binding in bindings.as_slice() {
        line.push_str(binding.name.as_str())?;
        line.push_str(":")?;
        show(line, alloc, Some(binding.value))?;
        line.push_str(";")?;
    }
    line.push_str("}")?;
    Ok(())
}

/// Opens an activation, at once or by `fresh` and `enter`, and writes its number.
fn open(
    line: &mut String,
    alloc: Global,
    frames: &mut Frames,
    is_fresh: bool,
) -> Result<(), NoRow> {
    let cell = frames.new_cell()?;
    let locals = locals(alloc, cell)?;
    if frames.is_full() {
        return Err(NoRow);
    }
    let frame = if is_fresh {
        let activation = frames.fresh(BlockId(0), false, locals)?;
        let frame = activation.frame;
        frames.enter(activation, Purpose::Result)?;
        frame
    } else {
        match frames.open(BlockId(0), false, locals, Purpose::Result) {
            Ok(frame) => frame,
            Err(_) => return Err(NoRow),
        }
    };
    show(line, alloc, Some(Value::Int(frame.0 as i128)))
}

/// Takes the newest out and opens it again.
fn reopen(line: &mut String, frames: &mut Frames) -> Result<(), NoRow>
    requires { 0 < length frames.old.activations }
{
    let (activation, why) = frames.leave();
    if frames.is_full() {
        return Err(NoRow);
    }
    frames.enter(activation, why)?;
    line.push_str(".")?;
    Ok(())
}

fn push(line: &mut String, frames: &mut Frames, slot: Slot) -> Result<(), NoRow>
    requires { 0 < length frames.old.activations }
{
    frames.push(slot)?;
    line.push_str(".")?;
    Ok(())
}

fn pop(line: &mut String, alloc: Global, frames: &mut Frames) -> Result<(), NoRow>
    requires { 0 < length frames.old.activations }
{
    if frames.slot_count() > 0 {
        let slot = frames.pop();
        return show_slot(line, alloc, slot);
    }
    Err(NoRow)
}

/// Puts a value at the place that a word says, or writes the value that is there.
fn place(
    line: &mut String,
    alloc: Global,
    frames: &mut Frames,
    place: Place,
    given: Option<&str>,
) -> Result<(), NoRow>
    requires { 0 < length frames.old.activations }
{
    match given {
        Some(word) => {
            frames.put(place, value(word)?);
            line.push_str(".")?;
            Ok(())
        }
        None => show(line, alloc, frames.get(place)),
    }
}

/// The same of a name of the class.
fn class_name(
    line: &mut String,
    alloc: Global,
    frames: &mut Frames,
    name: &str,
    given: Option<&str>,
) -> Result<(), NoRow>
    requires { 0 < length frames.old.activations }
{
    match given {
        Some(word) => {
            let name = Text::from_str(alloc, name)?;
            frames.set_name(&name, value(word)?)?;
            line.push_str(".")?;
            Ok(())
        }
        None => show(line, alloc, frames.name(name)),
    }
}

/// The same of a name of the module, by its text.
fn global(
    line: &mut String,
    alloc: Global,
    frames: &mut Frames,
    name: &str,
    given: Option<&str>,
) -> Result<(), NoRow> {
    match given {
        Some(word) => {
            let name = Text::from_str(alloc, name)?;
            frames.set_global(&name, value(word)?)?;
            line.push_str(".")?;
            Ok(())
        }
        None => show(line, alloc, frames.global(name)),
    }
}

/// The same of a name of the module, by its place.
fn global_at(
    line: &mut String,
    alloc: Global,
    frames: &mut Frames,
    word: &str,
    given: Option<&str>,
) -> Result<(), NoRow> {
    let place = number(word)? as usize;
    match given {
        Some(word) => {
            frames.set_global_at(place, value(word)?);
            line.push_str(".")?;
            Ok(())
        }
        None => show(line, alloc, frames.global_at(place)),
    }
}

/// What concerns the module's names alone, or no activation.
fn of_module(
    line: &mut String,
    alloc: Global,
    frames: &mut Frames,
    word: &str,
    given: Option<&str>,
) -> Result<(), NoRow> {
    if let Some(name) = word.strip_prefix("g:") {
        return global(line, alloc, frames, name, given);
    }
    if let Some(name) = word.strip_prefix("@:") {
        let name = Text::from_str(alloc, name)?;
        let place = frames.global_place(&name)?;
        return show(line, alloc, Some(Value::Int(place as i128)));
    }
    if let Some(place) = word.strip_prefix("@") {
        return global_at(line, alloc, frames, place, given);
    }
    match word {
        "o" => open(line, alloc, frames, false),
        "f" => open(line, alloc, frames, true),
        "e" => show(line, alloc, frames.active_exception()),
        "G" => show_bindings(line, alloc, &frames.global_bindings()?),
        _ => Err(NoRow),
    }
}

/// What concerns the slots of the newest activation.
fn of_slots(line: &mut String, alloc: Global, frames: &mut Frames, word: &str) -> Result<(), NoRow>
    requires { 0 < length frames.old.activations }
{
    if word == "q" {
        return pop(line, alloc, frames);
    }
    if let Some(rest) = word.strip_prefix("p") {
        return push(line, frames, Slot::Value(integer(rest)?));
    }
    if let Some(rest) = word.strip_prefix("x") {
        return push(line, frames, Slot::Exc(integer(rest)?));
    }
    if let Some(rest) = word.strip_prefix("r") {
        return push(
            line,
            frames,
            Slot::Pending(Completion::Raise(integer(rest)?)),
        );
    }
    if let Some(rest) = word.strip_prefix("k") {
        frames.cut(number(rest)? as usize);
        line.push_str(".")?;
        return Ok(());
    }
    if let Some(rest) = word.strip_prefix("s") {
        return match frames.slot(number(rest)? as usize) {
            Some(slot) => show_slot(line, alloc, slot),
            None => show(line, alloc, None),
        };
    }
    Err(NoRow)
}

/// What concerns the newest activation.
fn of_newest(
    line: &mut String,
    alloc: Global,
    frames: &mut Frames,
    word: &str,
    given: Option<&str>,
) -> Result<(), NoRow>
    requires { 0 < length frames.old.activations }
{
    match word {
        "v" => return reopen(line, frames),
        "z" => {
            frames.close();
            line.push_str(".")?;
            return Ok(());
        }
        "N" => return show_bindings(line, alloc, &frames.name_bindings()?),
        _ => {}
    }
    if let Some(name) = word.strip_prefix("n:") {
        return class_name(line, alloc, frames, name, given);
    }
    if let Some(rest) = word.strip_prefix("l") {
        return place(line, alloc, frames, Place::Local(number(rest)?), given);
    }
    if let Some(rest) = word.strip_prefix("c") {
        return place(line, alloc, frames, Place::Cell(number(rest)?), given);
    }
    of_slots(line, alloc, frames, word)
}

/// Whether a word concerns the names of the module, or what needs no open activation.
fn is_of_module(word: &str) -> bool {
    word.starts_with("g:") || word.starts_with("@") || matches!(word, "o" | "f" | "e" | "G")
}

fn answer(line: &mut String, alloc: Global, frames: &mut Frames, word: &str) -> Result<(), NoRow> {
    let (word, given) = match word.split_once("=") {
        Some((word, value)) => (word, Some(value)),
        None => (word, None),
    };
    if is_of_module(word) {
        return of_module(line, alloc, frames, word, given);
    }
    if frames.depth() == 0 {
        return Err(NoRow);
    }
    of_newest(line, alloc, frames, word, given)
}

pub fn answers(line: &mut String, alloc: Global, row: &str) -> Result<(), NoRow> {
    let mut frames = Frames::new(alloc, Seed::of(row.as_bytes()));
    let mut is_first = true;
    for word in row.split_whitespace() {
        if !is_first {
            line.push_str(" ")?;
        }
        is_first = false;
        if word == "d" {
            frames = frames.dup(alloc)?;
            line.push_str(".")?;
        } else {
            answer(line, alloc, &mut frames, word)?;
        }
    }
    Ok(())
}
