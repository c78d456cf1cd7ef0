//! Scripts (Language Reference 9.2).

ghost use Rattle.std.specs.Prelude.{◌≡◌, ◌≤◌, length};
ghost use Rattle.pt_expr.specs.Answers.{place_at};
ghost use Rattle.pt_parser.specs.Script.{ScriptAnswers};

use crate::Statements;
use crate::signs::END;
use pt_base::{Failure, Seq};
use pt_expr::ParseErr;
use pt_lexer::Token;
use pt_readers::Halt;
use pt_wide::WideScript;
use std::alloc::Global;

/// Where a reader stands that so many tokens are left to: the place of the next token, or of the
/// last one where there is none.
fn place(tokens: &[Token], left: usize) -> u32
    requires { left ≤ length tokens.now }
    ensures { result ≡ place_at tokens.now left }
{
    match tokens.get(tokens.len() - left) {
        Some(token) => token.at,
        None => match tokens.last() {
            Some(token) => token.at,
            None => 0,
        },
    }
}

/// Reads the script that tokens are by the wide grammar (Language Reference 7 to 9). Unexpected:
/// with the token at this byte place no script goes on, or the tokens end too early. Limit: with
/// the token on this line one goes on beyond the limits alone.
pub fn wide_script(alloc: Global, tokens: &[Token]) -> Result<WideScript, Failure<ParseErr>>
    ensures { ScriptAnswers tokens.now result }
{
    let mut reader = Statements::new(alloc, tokens);
    let mut body = Seq::new(alloc);
    let answer = reader.up_to(END, &mut body);
    let left = reader.len();
    match answer {
        Ok(_) => {
            if left == 0 {
                return Ok(WideScript { body });
            }
            Err(Failure::Refused(ParseErr::Unexpected {
                at: place(tokens, left),
            }))
        }
        Err(halt) => match halt {
            Halt::Unexpected => Err(Failure::Refused(ParseErr::Unexpected {
                at: place(tokens, left),
            })),
            Halt::Limit => Err(Failure::Refused(ParseErr::Limit {
                line: reader.line(),
            })),
            Halt::Memory => Err(Failure::Memory),
        },
    }
}
