//! What f-strings, slices and methods of texts answer to the rows of a table, beside what CPython
//! answered.
#![tactic(auto)]

mod answers;
mod no_row;
mod operands;

use answers::write_content;
use no_row::NoRow;
use operands::{start_of_row, value_of};
use pt_attrs::object_of;
use pt_base::Seq;
use pt_content::{Content, MethodName};
use pt_fields::{format_content, join_content};
use pt_heap::{Heap, Object, Value};
use pt_text_operations::{slice_content, subscript_content, text_method_content};
use pt_tree::Conversion;
use std::alloc::Global;
use std::process::ExitCode;
use test_notation::{Kind, Printed, answer_tables};

/// The methods by their words.
const METHODS: [(&str, MethodName); 12] = [
    ("m_join", MethodName::Join),
    ("m_split", MethodName::Split),
    ("m_strip", MethodName::Strip),
    ("m_lstrip", MethodName::Lstrip),
    ("m_rstrip", MethodName::Rstrip),
    ("m_replace", MethodName::Replace),
    ("m_find", MethodName::Find),
    ("m_startswith", MethodName::Startswith),
    ("m_endswith", MethodName::Endswith),
    ("m_count", MethodName::Count),
    ("m_append", MethodName::Append),
    ("m_index", MethodName::Index),
];

fn method_of(word: &str) -> Result<MethodName, NoRow> {
    for row in &METHODS {
        if row.0 == word {
            return Ok(row.1);
        }
    }
    Err(NoRow)
}

/// What a method of the first operand gives.
fn method_content(
    alloc: Global,
    heap: &Heap,
    word: &str,
    operands: &[Value],
) -> Result<Content, NoRow> {
    let name = method_of(word)?;
    let [text, args @ ..] = operands else {
        return Err(NoRow);
    };
    match object_of(heap, *text) {
        Some(Object::Str(text)) => Ok(text_method_content(alloc, name, heap, text.text(), args)?),
        _ => Err(NoRow),
    }
}

/// What an operation of a word gives.
fn content_of(
    alloc: Global,
    heap: &Heap,
    word: &str,
    operands: &[Value],
) -> Result<Content, NoRow> {
    match (word, operands) {
        ("format", [value, spec]) => Ok(format_content(alloc, None, heap, *value, *spec)?),
        ("format_s", [value, spec]) => {
            Ok(format_content(alloc, Some(Conversion::Str), heap, *value, *spec)?)
        }
        ("format_r", [value, spec]) => {
            Ok(format_content(alloc, Some(Conversion::Repr), heap, *value, *spec)?)
        }
        ("join", parts) => Ok(join_content(alloc, heap, parts)?),
        ("slice", [start, stop, step]) => Ok(slice_content(*start, *stop, *step)),
        ("item", [container, index]) => Ok(subscript_content(alloc, heap, *container, *index)?),
        _ => method_content(alloc, heap, word, operands),
    }
}

/// The operands of a row, each in the heap.
fn operands_of(alloc: Global, heap: &mut Heap, words: &str) -> Result<Seq<Value>, NoRow> {
    let mut operands = Seq::new(alloc);
    if words.is_empty() {
        return Ok(operands);
    }
    for word in words.split(" ") {
        operands.push(value_of(alloc, heap, word)?)?;
    }
    Ok(operands)
}

/// Writes what an operation gives of operands.
fn write_row(line: &mut String, alloc: Global, row: &str) -> Result<(), NoRow> {
    let (first, words) = match row.split_once(" ") {
        Some(parts) => parts,
        None => (row, ""),
    };
    let mut heap = start_of_row(alloc)?;
    let operands = operands_of(alloc, &mut heap, words)?;
    let content = content_of(alloc, &heap, first, operands.as_slice())?;
    write_content(line, &heap, &content)
}

/// Rows of an operation and its operands.
#[derive(Clone, Copy)]
struct Operations;

impl Kind for Operations {
    fn named(word: &str) -> Option<Operations> {
        if word == "operations" {
            return Some(Operations);
        }
        None
    }

    fn between(self) -> &'static str {
        "\n"
    }

    fn answer(self, out: &mut String, alloc: Global, row: &str) -> Printed {
        if write_row(out, alloc, row).is_err() {
            out.push_str(" no row")?;
        }
        Ok(())
    }

    fn is_taken(self, _alloc: Global, _text: &[u8]) -> bool {
        false
    }
}

fn main(rt: HostRuntime) -> ExitCode {
    answer_tables::<Operations, HostRuntime>(&rt)
}
