//! A row of landings is handler rows, each as `FROM-TO:TARGET:DEPTH` with `!` in front where it
//! takes each completion, then `|`, a place, and `raise`, `return`, `normal` or the place that is
//! left for.

ghost use Rattle.std.specs.Prelude.{◌≡◌};

use crate::no_row::NoRow;
use pt_base::{Line, Pc, Seq};
use pt_code::{BlockKind, CodeBlock, Rest};
use pt_heap::{Completion, Value};
use pt_instr::TextNo;
use pt_ranges::{Handler, HandlerTable};
use pt_unwind::{Landing, land};
use std::alloc::Global;

fn number(word: &str) -> Result<u32, NoRow> {
    match word.parse::<u32>() {
        Ok(number) => Ok(number),
        Err(_) => Err(NoRow),
    }
}

fn handler(word: &str) -> Result<Handler, NoRow> {
    let always = word.starts_with("!");
    let word = word.trim_start_matches("!");
    let Some((from, rest)) = word.split_once("-") else {
        return Err(NoRow);
    };
    let Some((to, rest)) = rest.split_once(":") else {
        return Err(NoRow);
    };
    let Some((target, depth)) = rest.split_once(":") else {
        return Err(NoRow);
    };
    Ok(Handler {
        from: Pc(number(from)?),
        to: Pc(number(to)?),
        target: Pc(number(target)?),
        depth: number(depth)?,
        always,
    })
}

fn handlers(alloc: Global, words: &str) -> Result<Seq<Handler>, NoRow> {
    let mut handlers = Seq::new(alloc);
    for word in words.split_whitespace() {
        let handler = handler(word)?;
        handlers.push(handler)?;
    }
    Ok(handlers)
}

fn completion(word: &str) -> Result<Completion, NoRow> {
    match word {
        "normal" => Ok(Completion::Normal),
        "raise" => Ok(Completion::Raise(Value::None)),
        "return" => Ok(Completion::Return(Value::None)),
        _ => Ok(Completion::Leave {
            target: Pc(number(word)?),
        }),
    }
}

fn block(alloc: Global, handlers: Seq<Handler>) -> CodeBlock
    ensures { result.handlers ≡ handlers }
{
    CodeBlock {
        name: TextNo(0),
        kind: BlockKind::Module,
        first_line: Line(1),
        parameters: 0,
        rest: Rest {
            positional: false,
            named: false,
        },
        keyword_only: 0,
        locals: Seq::new(alloc),
        cells: Seq::new(alloc),
        free: Seq::new(alloc),
        instructions: Seq::new(alloc),
        marks: Seq::new(alloc),
        handlers,
        starts: Seq::new(alloc),
    }
}

fn show(line: &mut String, alloc: Global, landing: Landing) -> Result<(), NoRow> {
    let text = match landing {
        Landing::Enter {
            pc,
            depth,
            holds_completion,
        } => format!(in alloc; "Enter {} {depth} {holds_completion}", pc.0)?,
        Landing::Jump { pc } => format!(in alloc; "Jump {}", pc.0)?,
        Landing::Out => format!(in alloc; "Out")?,
    };
    line.push_str(text.as_str())?;
    Ok(())
}

pub fn answers(line: &mut String, alloc: Global, row: &str) -> Result<(), NoRow> {
    let Some((left, right)) = row.split_once("|") else {
        return Err(NoRow);
    };
    let Some((pc, how)) = right.trim().split_once(" ") else {
        return Err(NoRow);
    };
    let pc = Pc(number(pc)?);
    let how = completion(how)?;
    let handlers = handlers(alloc, left)?;
    if handlers.len() > u32::MAX as usize {
        return Err(NoRow);
    }
    let table = HandlerTable::build(alloc, handlers.as_slice())?;
    let block = block(alloc, handlers);
    show(line, alloc, land(&block, &table, pc, how))
}
