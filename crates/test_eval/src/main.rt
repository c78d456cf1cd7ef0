//! What a debugger shows of the expressions of a table, in a frame over objects of each kind.
#![tactic(auto)]

mod no_row;
mod objects;

use no_row::NoRow;
use objects::state_of;
use pt_eval::{EvalAns, eval};
use pt_front::parse_expr;
use pt_lexer::tokens;
use pt_tree::Expr;
use std::alloc::Global;
use std::process::ExitCode;
use test_notation::{Kind, Printed, answer_tables};

/// The size that a text stays below, in bytes.
const LIMIT: usize = 1 << 31;

/// The expression with which a text begins.
fn expression_of(alloc: Global, text: &str) -> Result<Expr, NoRow> {
    if text.len() >= LIMIT {
        return Err(NoRow);
    }
    let words = tokens(alloc, text.as_bytes())?;
    let found = parse_expr(alloc, words.as_slice(), 0)?;
    Ok(found.0)
}

fn write_answer(line: &mut String, answer: &EvalAns) -> Result<(), NoRow> {
    match answer {
        EvalAns::Shown { text, truth } => {
            line.push_str(text.as_str())?;
            line.push_str(if *truth { " true" } else { " false" })?;
        }
        EvalAns::Raise { text } => {
            line.push_str("*** ")?;
            line.push_str(text.as_str())?;
        }
        EvalAns::Refused => line.push_str("refused")?,
    }
    Ok(())
}

/// Writes what is shown of an expression, and whether the heap has objects more or fewer behind it.
fn write_row(line: &mut String, alloc: Global, row: &str) -> Result<(), NoRow> {
    let expr = expression_of(alloc, row)?;
    let state = state_of(alloc)?;
    let mut heap = state.0;
    let count = heap.len();
    let answer = eval(alloc, &expr, &state.1, 1, &mut heap)?;
    write_answer(line, &answer)?;
    if heap.len() != count {
        line.push_str(" changed")?;
    }
    Ok(())
}

/// Rows of an expression each.
#[derive(Clone, Copy)]
struct Expressions;

impl Kind for Expressions {
    fn named(word: &str) -> Option<Expressions> {
        if word == "expressions" {
            return Some(Expressions);
        }
        None
    }

    fn between(self) -> &'static str {
        "\n"
    }

    fn answer(self, out: &mut String, alloc: Global, row: &str) -> Printed {
        if write_row(out, alloc, row).is_err() {
            out.push_str(" no row")?;
        }
        Ok(())
    }

    fn is_taken(self, _alloc: Global, _text: &[u8]) -> bool {
        false
    }
}

fn main(rt: HostRuntime) -> ExitCode {
    answer_tables::<Expressions, HostRuntime>(&rt)
}
