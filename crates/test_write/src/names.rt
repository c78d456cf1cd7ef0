//! The scripts in which the rows stand, the names of their blocks, and where the rows are in them: first
//! in a method that has `a` of its own and `b` in a cell, and takes `c` of a function around, or, with an
//! `@` in front, first in the body of a class.

use crate::rows::NoRow;
use pt_base::{BlockId, Shared};
use pt_block_names::BlockNames;
use pt_front::parse_script;
use pt_lexer::tokens;
use pt_scopes::resolve;
use pt_script_names::script_names;
use pt_tree::{Script, Stmt, StmtNode};
use std::alloc::Global;

/// The size that a text stays below, in bytes.
const LIMIT: usize = 1 << 31;

fn text_of(alloc: Global, row: &str) -> Result<String, NoRow> {
    let mut text = String::from_str(alloc, "def around(c):\n    class _K:\n")?;
    match row.strip_prefix("@") {
        Some(row) => {
            text.push_str("        ")?;
            text.push_str(row)?;
            text.push_str("\n        k = 0\n")?;
        }
        None => {
            text.push_str("        def method(a, b):\n            nonlocal c\n            ")?;
            text.push_str(row)?;
            text.push_str("\n            lambda: (b, c)\n")?;
        }
    }
    Ok(text)
}

/// The script of a row.
pub fn script_of(alloc: Global, row: &str) -> Result<Script, NoRow> {
    let text = text_of(alloc, row)?;
    if text.len() >= LIMIT {
        return Err(NoRow);
    }
    let Ok(words) = tokens(alloc, text.as_bytes()) else {
        return Err(NoRow);
    };
    parse_script(alloc, words.as_slice()).map_err(|_| NoRow)
}

/// The block of a function or a class, and its statements.
fn block_of(s: &Stmt) -> Result<(BlockId, &[Stmt]), NoRow> {
    match &s.node {
        StmtNode::Def { block, body, .. } => Ok((*block, body.as_slice())),
        StmtNode::Class { block, body, .. } => Ok((*block, body.as_slice())),
        _ => Err(NoRow),
    }
}

fn at(body: &[Stmt], place: usize) -> Result<&Stmt, NoRow> {
    body.get(place).ok_or(NoRow)
}

/// The statement of a row, and the block in which it is.
pub fn stand<'a>(script: &'a Script, row: &str) -> Result<(BlockId, &'a Stmt), NoRow> {
    let (_, in_function) = block_of(at(script.body.as_slice(), 0)?)?;
    let (class, in_class) = block_of(at(in_function, 0)?)?;
    let first = at(in_class, 0)?;
    if row.starts_with("@") {
        return Ok((class, first));
    }
    let (method, in_method) = block_of(first)?;
    Ok((method, at(in_method, 1)?))
}

/// The names of a block of a script.
pub fn names(alloc: Global, script: &Script, block: BlockId) -> Result<BlockNames, NoRow> {
    match resolve(alloc, script) {
        Ok(_) => {
            let names = Shared::new(alloc, script_names(alloc, script)?)?;
            Ok(BlockNames { names, block })
        }
        Err(_) => Err(NoRow),
    }
}
