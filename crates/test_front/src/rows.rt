//! What is answered of a row of a table.

use crate::acts::acts_of;
use crate::scopes::scopes_of;
use pt_acts::acts;
use pt_base::{Failure, Seq};
use pt_front::{Refusal, front, parse_expr, parse_script};
use pt_lexer::{Token, tokens};
use pt_tree::Script;
use std::alloc::Global;
use test_notation::{Printed, text_of, word};

/// The size that a text stays below, in bytes.
const LIMIT: usize = 1 << 31;

fn refusal(out: &mut String, failure: Failure<Refusal>) -> Printed {
    match failure {
        Failure::Refused(refusal) => write!(out, " {} {}", refusal.number(), refusal.place()),
        Failure::Memory => word(out, "memory"),
    }
}

/// The tokens of a text; a longer one than the front end reads is told as want of memory.
fn tokens_of(alloc: Global, text: &[u8]) -> Result<Seq<Token>, Failure<Refusal>> {
    if text.len() >= LIMIT {
        return Err(Failure::Memory);
    }
    tokens(alloc, text).map_err(|failure| failure.map_refused(Refusal::from))
}

/// The tree of a script.
pub fn script_of(alloc: Global, text: &[u8]) -> Result<Script, Failure<Refusal>> {
    let words = tokens_of(alloc, text)?;
    parse_script(alloc, words.as_slice()).map_err(|failure| failure.map_refused(Refusal::from))
}

/// The expression of the language that begins with the token of this number, and how many tokens stand
/// before its end.
fn expression_at(out: &mut String, alloc: Global, words: &[Token], at: usize) -> Printed {
    if at > words.len() {
        return word(out, "-");
    }
    match parse_expr(alloc, words, at) {
        Ok((e, end)) => {
            test_printer::expression(out, &e)?;
            write!(out, " {end}")
        }
        Err(failure) => refusal(out, failure.map_refused(Refusal::from)),
    }
}

/// The expression in a text that stands on a line behind the number of its first token.
pub fn expression(out: &mut String, alloc: Global, row: &str) -> Printed {
    let (at, row) = row.split_once(" ").unwrap_or(("", row));
    let at = at.parse::<usize>().unwrap_or(0);
    let text = text_of(alloc, row)?;
    match tokens_of(alloc, text.as_slice()) {
        Ok(words) => expression_at(out, alloc, words.as_slice(), at),
        Err(failure) => refusal(out, failure),
    }
}

/// The tree of a script.
pub fn tree(out: &mut String, alloc: Global, text: &[u8]) -> Printed {
    match script_of(alloc, text) {
        Ok(script) => test_printer::script(out, &script),
        Err(failure) => refusal(out, failure),
    }
}

/// The acts of a script.
pub fn act_table(out: &mut String, alloc: Global, text: &[u8]) -> Printed {
    match script_of(alloc, text) {
        Ok(script) => match acts(alloc, &script) {
            Ok(table) => acts_of(out, &table),
            Err(_) => word(out, "memory"),
        },
        Err(failure) => refusal(out, failure),
    }
}

/// The scopes in a script of the names that its first line tells behind `#`.
pub fn scopes(out: &mut String, alloc: Global, text: &str) -> Printed {
    if text.len() >= LIMIT {
        return word(out, "memory");
    }
    match front(alloc, text.as_bytes()) {
        Ok((_, scopes)) => match text.split_once("\n") {
            Some((names, _)) => scopes_of(out, &scopes, names.strip_prefix("#").unwrap_or("")),
            None => Ok(()),
        },
        Err(failure) => refusal(out, failure),
    }
}

/// Whether a text is a script whose names have scopes.
pub fn is_resolved(alloc: Global, text: &[u8]) -> bool {
    text.len() < LIMIT && front(alloc, text).is_ok()
}
