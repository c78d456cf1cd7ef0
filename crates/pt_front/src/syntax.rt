//! What tokens are in the language (Language Reference 6 to 8).

ghost use Rattle.std.specs.Prelude.{◌≡◌, ◌≤◌, length, MatchResult};
ghost use Rattle.pt_base.specs.Failures.{IfRefused};
ghost use Rattle.pt_tree.specs.Fold.{exp_of};
ghost use Rattle.pt_tree.specs.StatementFold.{script_of};
ghost use Rattle.pt_front.specs.Syntax.{of_parse, of_narrowing, AreScript, AreNoScript, IsExpr, IsNoExpr};

use pt_base::{Failure, Line};
use pt_expr::{ParseErr, wide};
use pt_grammar::Part;
use pt_lexer::Token;
use pt_parser::wide_script;
use pt_refine::narrow;
use pt_refine_expr::{Narrowing, narrow_expr};
use pt_tree::{Expr, Script};
use std::alloc::Global;

/// Why tokens are nothing of the language.
#[derive(Clone, Copy, Debug, PartialEq, Eq)]
pub enum SyntaxErr {
    /// With the token at this byte place nothing goes on, or the tokens end too early.
    Unexpected { at: u32 },
    /// What stands in a target's place can't stand there (Language Reference 7.2).
    BadTarget { line: Line },
    /// A form that is left out of the language.
    Excluded { line: Line },
    /// With the token on this line something goes on beyond the limits alone.
    Limit { line: Line },
}

impl From<ParseErr> for SyntaxErr {
    ghost from_gives = { λ p e. e ≡ of_parse p };

    fn from(error: ParseErr) -> Self {
        match error {
            ParseErr::Unexpected { at } => SyntaxErr::Unexpected { at },
            ParseErr::Limit { line } => SyntaxErr::Limit { line },
        }
    }
}

/// Why a tree of the wide grammar is none of the language.
fn left_out(told: Narrowing) -> Failure<SyntaxErr>
    ensures { result ≡ of_narrowing told }
{
    match told {
        Narrowing::BadTarget { line } => Failure::Refused(SyntaxErr::BadTarget { line }),
        Narrowing::Excluded { line } => Failure::Refused(SyntaxErr::Excluded { line }),
        Narrowing::Memory => Failure::Memory,
    }
}

/// The script that tokens are, all of them (Language Reference 7, 8). Where they are one of the wide
/// grammar, the node is told that the language leaves out and that starts first.
pub fn parse_script(alloc: Global, tokens: &[Token]) -> Result<Script, Failure<SyntaxErr>>
    ensures { MatchResult result (λ s. AreScript tokens.now (script_of s)) (IfRefused (AreNoScript tokens.now)) }
{
    let wide = match wide_script(alloc, tokens) {
        Ok(wide) => wide,
        Err(failure) => return Err(failure.map_refused(SyntaxErr::from)),
    };
    match narrow(alloc, &wide) {
        Ok(script) => Ok(script),
        Err(told) => Err(left_out(told)),
    }
}

/// The expression with which the tokens from a place on begin, and the place behind it (Language
/// Reference 6).
pub fn parse_expr(
    alloc: Global,
    tokens: &[Token],
    at: usize,
) -> Result<(Expr, usize), Failure<SyntaxErr>>
    requires { at ≤ length tokens.now }
    ensures { MatchResult result (λ r. IsExpr tokens.now at (exp_of r.0) r.1) (IfRefused (IsNoExpr tokens.now at)) }
{
    let (wide, next) = match wide(alloc, tokens, at, Part::Whole) {
        Ok(found) => found,
        Err(failure) => return Err(failure.map_refused(SyntaxErr::from)),
    };
    match narrow_expr(alloc, &wide) {
        Ok(expr) => Ok((expr, next)),
        Err(told) => Err(left_out(told)),
    }
}
