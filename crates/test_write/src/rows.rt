//! What is written of a row: of the statement `e` the code of the expression, of `while e: ..` that of
//! the test of a loop, of `t = ..` that of the target, of `p += ..` that of its place, and of
//! `(lambda ..)` that which makes the function.

use crate::names::{names, script_of, stand};
use pt_assembler::{Heading, Tables, Writer};
use pt_base::{Line, Memory};
use pt_code::{BlockKind, CodeBlock, Rest};
use pt_comp_expr::{Surroundings, expr_code, function_code, place_code, target_code};
use pt_instr::TextNo;
use pt_tree::{Expr, ExprNode, Stmt, StmtNode};
use std::alloc::{AllocError, Global};
use std::fmt::Write;

/// The line is no row, or memory ran out.
#[derive(Clone, Copy, Debug)]
pub struct NoRow;

impl From<Memory> for NoRow {
    fn from(_: Memory) -> Self {
        NoRow
    }
}

impl From<AllocError> for NoRow {
    fn from(_: AllocError) -> Self {
        NoRow
    }
}

impl From<std::fmt::Error> for NoRow {
    fn from(_: std::fmt::Error) -> Self {
        NoRow
    }
}

fn expression(w: &mut Writer, at: &Surroundings, e: &Expr, again: bool) -> Result<(), NoRow> {
    match &e.node {
        ExprNode::Lambda {
            block,
            parameters,
            ..
        } => function_code(w, at, e.line, *block, parameters, again)?,
        _ => expr_code(w, at, e, again)?,
    }
    Ok(())
}

fn statement(w: &mut Writer, at: &Surroundings, s: &Stmt) -> Result<(), NoRow> {
    match &s.node {
        StmtNode::Expr(e) => expression(w, at, e, false),
        StmtNode::While { test, .. } => expression(w, at, test, true),
        StmtNode::Assign { targets, .. } => {
            for target in targets.as_slice() {
                target_code(w, at, target)?;
            }
            Ok(())
        }
        StmtNode::Augmented { target, .. } => {
            place_code(w, at, target.line, &target.node)?;
            Ok(())
        }
        _ => Err(NoRow),
    }
}

/// Writes the bytes in hex, and of each act where it begins, its number and its line, with a `!` where
/// a re-test begins with it.
fn tell_block(line: &mut String, alloc: Global, block: &CodeBlock) -> Result<(), NoRow> {
    let instructions = hex::encode(alloc, block.instructions.as_slice()).map_err(|_| NoRow)?;
    write!(line, "{instructions}")?;
    for mark in block.marks.as_slice() {
        let again = if mark.again { "!" } else { "" };
        write!(line, " {}:{}:{}{again}", mark.pc.0, mark.act.0, mark.line.0)?;
    }
    tell_names(line, "locals", block.locals.as_slice())?;
    tell_names(line, "cells", block.cells.as_slice())?;
    tell_names(line, "free", block.free.as_slice())
}

fn tell_names(line: &mut String, what: &str, names: &[TextNo]) -> Result<(), NoRow> {
    if !names.is_empty() {
        write!(line, "; {what}")?;
    }
    for name in names {
        write!(line, " {}", name.0)?;
    }
    Ok(())
}

/// Writes the texts, constants and lists, each by its place.
fn tell_tables(line: &mut String, tables: Tables) -> Result<(), NoRow> {
    line.push_str("; texts")?;
    for text in tables.texts.into_items().as_slice() {
        write!(line, " '{}'", text.as_str())?;
    }
    write!(
        line,
        "; constants {:?}",
        tables.constants.into_items().as_slice()
    )?;
    for list in tables.lists.into_items().as_slice() {
        write!(line, "; list {:?}", list.as_slice())?;
    }
    Ok(())
}

/// Writes what is written of a row.
pub fn answer(line: &mut String, alloc: Global, row: &str) -> Result<(), NoRow> {
    let script = script_of(alloc, row)?;
    let (block, s) = stand(&script, row)?;
    let names = names(alloc, &script, block)?;
    let at = Surroundings {
        names: &names,
        within: &[],
    };
    let mut w = Writer::begin(alloc, Tables::new(alloc), 0)?;
    statement(&mut w, &at, s)?;
    let heading = Heading {
        name: TextNo(0),
        kind: BlockKind::Function,
        first_line: Line(1),
        parameters: 0,
        rest: Rest {
            positional: false,
            named: false,
        },
        keyword_only: 0,
    };
    let (tables, block) = w.finish(heading)?;
    tell_block(line, alloc, &block)?;
    tell_tables(line, tables)
}
