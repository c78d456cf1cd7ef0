//! What dictionaries, sets and their iterators answer to the rows of a table, beside what CPython
//! answered.
#![tactic(auto)]

mod answers;
mod heap;
mod no_row;
mod objects;
mod steps;

use answers::{write_answer, write_made};
use heap::heap_of_objects;
use no_row::NoRow;
use objects::{World, settled};
use pt_base::Seq;
use std::alloc::Global;
use std::process::ExitCode;
use steps::content_of;
use test_notation::{Kind, Printed, answer_tables};

/// Does a step, and writes its answer.
fn write_step(
    line: &mut String,
    alloc: Global,
    world: &mut World,
    step: &str,
) -> Result<(), NoRow> {
    let (name, words) = match step.split_once(" ") {
        Some(parts) => parts,
        None => (step, ""),
    };
    let operands = world.operands(alloc, words)?;
    let content = content_of(alloc, world, name, operands.as_slice())?;
    let answer = settled(alloc, content, &mut world.heap)?;
    write_answer(line, world, &answer)
}

/// Does the steps of a row, and writes what each answers, and what the objects that were made hold
/// then.
fn write_row(line: &mut String, alloc: Global, row: &str) -> Result<(), NoRow> {
    let mut world = World {
        heap: heap_of_objects(alloc)?,
        made: Seq::new(alloc),
    };
    let mut is_behind = false;
    for step in row.split(" / ") {
        if is_behind {
            line.push_str(" / ")?;
        }
        write_step(line, alloc, &mut world, step)?;
        is_behind = true;
    }
    write_made(line, &world)
}

/// Rows of steps.
#[derive(Clone, Copy)]
struct Rows;

impl Kind for Rows {
    fn named(word: &str) -> Option<Rows> {
        if word == "steps" {
            return Some(Rows);
        }
        None
    }

    fn between(self) -> &'static str {
        "\n"
    }

    fn answer(self, out: &mut String, alloc: Global, row: &str) -> Printed {
        if write_row(out, alloc, row).is_err() {
            out.push_str(" no row")?;
        }
        Ok(())
    }

    fn is_taken(self, _alloc: Global, _text: &[u8]) -> bool {
        false
    }
}

fn main(rt: HostRuntime) -> ExitCode {
    answer_tables::<Rows, HostRuntime>(&rt)
}
