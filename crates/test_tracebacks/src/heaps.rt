use crate::no_row::NoRow;
use pt_base::{BlockId, FrameNo, Line, ObjId, Seq, Text};
use pt_heap::{Class, Dict, Error, Heap, Object, Seed, Str, TraceEntry, Value};
use std::alloc::Global;
use std::str;
use test_notation::text_of;

fn seed() -> Seed {
    Seed::of(b"tracebacks")
}

fn number(word: &str) -> Result<u32, NoRow> {
    word.parse::<u32>().map_err(|_| NoRow)
}

/// Where an exception stands, of whose row the first stands at a place.
fn place(word: &str, first: u32) -> Result<Option<ObjId>, NoRow> {
    if word == "-" {
        return Ok(None);
    }
    Ok(Some(ObjId(number(word)?.saturating_add(first))))
}

/// A text, with escapes.
fn text(alloc: Global, word: &str) -> Result<Text, NoRow> {
    let bytes = text_of(alloc, word)?;
    let text = str::from_utf8(bytes.as_slice()).map_err(|_| NoRow)?;
    Ok(Text::from_str(alloc, text)?)
}

/// The entries of frames, each a line and the number of a block.
fn trace(alloc: Global, word: &str) -> Result<Seq<TraceEntry>, NoRow> {
    let mut entries = Seq::new(alloc);
    if word == "-" {
        return Ok(entries);
    }
    for entry in word.split(",") {
        let (line, block) = entry.split_once(":").ok_or(NoRow)?;
        entries.push(TraceEntry {
            frame: FrameNo(0),
            block: BlockId(number(block)?),
            line: Line(number(line)?),
        })?;
    }
    Ok(entries)
}

/// Puts the class of an exception and its argument into a heap.
fn add_parts(alloc: Global, heap: &mut Heap, exception: &str) -> Result<(), NoRow> {
    let mut words = exception.split(" ");
    let name = Text::from_str(alloc, words.next().ok_or(NoRow)?)?;
    let argument = text(alloc, words.next().ok_or(NoRow)?)?;
    heap.add(Object::Class(Class {
        name,
        base: None,
        scripted: false,
        names: Dict::new(alloc, seed()),
    }))?;
    heap.add(Object::Str(Str::new(argument)))?;
    Ok(())
}

/// The arguments of an exception, the one at a place or none.
fn arguments(alloc: Global, word: &str, place: u32) -> Result<Seq<Value>, NoRow> {
    let mut args = Seq::new(alloc);
    if word != "-" {
        args.push(Value::Obj(ObjId(place)))?;
    }
    Ok(args)
}

/// An exception of a row: its class, its argument, the numbers of its cause and its context, whether
/// that is hidden, and its frames.
fn error(alloc: Global, exception: &str, class: u32, first: u32) -> Result<Object, NoRow> {
    let mut words = exception.split(" ").skip(1);
    let argument = words.next().ok_or(NoRow)?;
    let cause = place(words.next().ok_or(NoRow)?, first)?;
    let context = place(words.next().ok_or(NoRow)?, first)?;
    let hides_context = words.next().ok_or(NoRow)? == "hides";
    let trace = trace(alloc, words.next().ok_or(NoRow)?)?;
    Ok(Object::Error(Error {
        class: ObjId(class),
        args: arguments(alloc, argument, class.saturating_add(1))?,
        cause,
        context,
        hides_context,
        trace,
        names: Dict::new(alloc, seed()),
    }))
}

/// The classes and arguments of exceptions, and the exceptions behind them, with the place of the
/// first.
pub fn heap_of_exceptions(alloc: Global, exceptions: &str) -> Result<(Heap, u32), NoRow> {
    let mut heap = Heap::new(alloc, seed());
    for exception in exceptions.split("\t") {
        add_parts(alloc, &mut heap, exception)?;
    }
    let first = heap.len();
    let mut class: u32 = 0;
    for exception in exceptions.split("\t") {
        heap.add(error(alloc, exception, class, first)?)?;
        class = class.saturating_add(2);
    }
    Ok((heap, first))
}
