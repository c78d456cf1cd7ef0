//! What operations on values answer to the rows of a table, beside what CPython answered.
#![tactic(auto)]

mod answers;
mod no_row;
mod objects;
mod signs;

use answers::{Row, write_answer};
use no_row::NoRow;
use objects::{heap_of_objects, value_of};
use pt_base::Seq;
use pt_heap::{Heap, Value};
use pt_prims::prim;
use signs::operation_of;
use std::alloc::Global;
use std::process::ExitCode;
use test_notation::{Kind, Printed, answer_tables};

/// The operands of a row, each in the heap.
fn operands_of(alloc: Global, heap: &mut Heap, words: &str) -> Result<Seq<Value>, NoRow> {
    let mut operands = Seq::new(alloc);
    if words.is_empty() {
        return Ok(operands);
    }
    for word in words.split(" ") {
        operands.push(value_of(alloc, heap, word)?)?;
    }
    Ok(operands)
}

/// Writes what an operation answers to operands.
fn write_row(line: &mut String, alloc: Global, row: &str) -> Result<(), NoRow> {
    let (first, words) = match row.split_once(" ") {
        Some(parts) => parts,
        None => (row, ""),
    };
    let op = operation_of(first)?;
    let mut heap = heap_of_objects(alloc)?;
    let operands = operands_of(alloc, &mut heap, words)?;
    let count = heap.len();
    let answer = prim(alloc, op, operands.as_slice(), &mut heap)?;
    let row = Row {
        words,
        operands: operands.as_slice(),
        heap: &heap,
        count,
    };
    write_answer(line, row, op, &answer)
}

/// Rows of an operation and its operands.
#[derive(Clone, Copy)]
struct Operations;

impl Kind for Operations {
    fn named(word: &str) -> Option<Operations> {
        if word == "operations" {
            return Some(Operations);
        }
        None
    }

    fn between(self) -> &'static str {
        "\n"
    }

    fn answer(self, out: &mut String, alloc: Global, row: &str) -> Printed {
        if write_row(out, alloc, row).is_err() {
            out.push_str(" no row")?;
        }
        Ok(())
    }

    fn is_taken(self, _alloc: Global, _text: &[u8]) -> bool {
        false
    }
}

fn main(rt: HostRuntime) -> ExitCode {
    answer_tables::<Operations, HostRuntime>(&rt)
}
