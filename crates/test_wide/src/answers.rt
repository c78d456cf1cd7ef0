use pt_base::Failure;
use pt_expr::{ParseErr, wide};
use pt_grammar::Part;
use pt_lexer::Token;
use pt_parser::wide_script;
use pt_wide::{WideBinOp, WideExpr, WideNode};
use std::alloc::Global;
use test_notation::{Printed, sign_of, word};

/// The number of a refusal, and its byte or its line.
fn refusal(out: &mut String, failure: Failure<ParseErr>) -> Printed {
    match failure {
        Failure::Refused(ParseErr::Unexpected { at }) => write!(out, " 10 {at}"),
        Failure::Refused(ParseErr::Limit { line }) => write!(out, " 13 {}", line.0),
        Failure::Memory => word(out, "memory"),
    }
}

/// How many tokens an expression has, and its operator where it is a binary operation.
fn expression(out: &mut String, e: &WideExpr, end: usize) -> Printed {
    write!(out, " {end}")?;
    match &e.node {
        WideNode::Binary { operator, .. } => match *operator {
            WideBinOp::Plain(operator) => word(out, sign_of(operator)),
            WideBinOp::MatMul => word(out, "@"),
        },
        _ => Ok(()),
    }
}

/// The expression with which tokens begin, or what may stand in a target's place.
pub fn part(out: &mut String, alloc: Global, words: &[Token], part: Part) -> Printed {
    match wide(alloc, words, 0, part) {
        Ok((e, end)) => expression(out, &e, end),
        Err(failure) => refusal(out, failure),
    }
}

/// Whether tokens are a script.
pub fn script(out: &mut String, alloc: Global, words: &[Token]) -> Printed {
    match wide_script(alloc, words) {
        Ok(_) => word(out, "script"),
        Err(failure) => refusal(out, failure),
    }
}
