//! The wide grammar's expressions in a list of tokens.

ghost use Rattle.std.specs.Prelude.{◌≡◌, ◌≢◌, ◌≤◌, List, Result, Err, length, drop};
ghost use Rattle.pt_wide.specs.Fold.{exp_of};
ghost use Rattle.pt_wide.specs.Syntax.{Exp};
ghost use Rattle.pt_readers.specs.Settled.{Settled};
ghost use Rattle.pt_readers.specs.Whole.{Tells};
ghost use Rattle.pt_readers.specs.declared.halt.Halt.{Halt as Cause};
ghost use Rattle.pt_readers.specs.declared.halt.Halt.TheVariants as cause;
ghost use Rattle.pt_grammar.specs.declared.part.Part.{Part as WhichPart};
ghost use Rattle.pt_grammar.specs.Lexemes.{Lexeme, lexemes};
ghost use Rattle.pt_expr.specs.Answers.{part_of, Answers, place_at};

use crate::reader::Reader;
use pt_base::{Failure, Line};
use pt_grammar::Part;
use pt_grammar::deep::Deep;
use pt_lexer::Token;
use pt_readers::Halt;
use pt_wide::WideExpr;
use std::alloc::Global;

/// Why tokens are no expression.
#[derive(Clone, Copy, Debug, PartialEq, Eq)]
pub enum ParseErr {
    /// With the token at this byte place nothing goes on.
    Unexpected { at: u32 },
    /// With a token on this line something goes on beyond the limits alone.
    Limit { line: Line },
}

/// How many nodes of an expression may stand inside one another.
const ROOM: u32 = 500;

/// Where a reader stands that so many tokens are left to: the place of the next token, or of the
/// last one where there is none.
fn place(tokens: &[Token], left: usize) -> u32
    requires { left ≤ length tokens.now }
    ensures { result ≡ place_at tokens.now left }
{
    match tokens.get(tokens.len() - left) {
        Some(token) => token.at,
        None => match tokens.last() {
            Some(token) => token.at,
            None => 0,
        },
    }
}

/// The tokens from a place on.
fn from(tokens: &[Token], at: usize) -> &[Token]
    requires { at ≤ length tokens.now }
    ensures { result.now ≡ drop at tokens.now }
{
    let (_, rest) = tokens.split_at(at);
    rest
}

/// Reads a part of the grammar.
fn read(reader: &mut Reader, part: Part) -> Result<Deep, Halt>
    ensures { Settled (part_of part) (λ e. exp_of e.tree) reader.old.lexemes reader.new.lexemes result }
{
    match part {
        Part::Whole => reader.expr(ROOM),
        Part::Target => reader.binary(6, ROOM),
    }
}

/// Reads the part of the wide grammar with which the tokens from a place on begin, and answers the
/// place behind it (Language Reference 6). Unexpected: with the token at this byte place nothing
/// goes on, or the tokens end too early. Limit: with the token on this line something goes on
/// beyond the limits alone.
pub fn wide(
    alloc: Global,
    tokens: &[Token],
    at: usize,
    part: Part,
) -> Result<(WideExpr, usize), Failure<ParseErr>>
    requires { at ≤ length tokens.now }
    ensures { Answers part tokens.now at result }
{
    let tokens = from(tokens, at);
    let mut reader = Reader::new(alloc, tokens);
    let answer = read(&mut reader, part);
    let left = reader.lexemes.len();
    match answer {
        Ok(found) => Ok((found.tree.into_inner(), at + (tokens.len() - left))),
        Err(halt) => match halt {
            Halt::Unexpected => Err(Failure::Refused(ParseErr::Unexpected {
                at: place(tokens, left),
            })),
            Halt::Limit => Err(Failure::Refused(ParseErr::Limit {
                line: reader.lexemes.line(),
            })),
            Halt::Memory => Err(Failure::Memory),
        },
    }
}

/// Apart from want of memory, tokens have one answer.
pub fn one_answer()
    ensures { (p : WhichPart) (ts rest rest' : List Lexeme) (r r' : Result Exp Cause) → Tells (part_of p) ts rest r → Tells (part_of p) ts rest' r' → r ≢ Err cause.Memory → r' ≢ Err cause.Memory → (r ≡ r') × (rest ≡ rest') }
{}
