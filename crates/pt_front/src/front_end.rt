ghost use Rattle.std.specs.Prelude.{◌<◌, ◌^◌, length, MatchResult};
ghost use Rattle.pt_base.specs.Failures.{IfRefused};
ghost use Rattle.pt_front.specs.Text.{IsFront, IsRefused};

use crate::{Refusal, parse_script};
use pt_base::Failure;
use pt_lexer::tokens;
use pt_scopes::{Scopes, resolve};
use pt_tree::Script;
use std::alloc::Global;

/// The script that a text is, and the scopes of its names.
///
/// What is told first is why the text has no tokens, then why they are no script, and then what is
/// at fault in the declarations of the script.
pub fn front(alloc: Global, text: &[u8]) -> Result<(Script, Scopes), Failure<Refusal>>
    requires { length text.now < 2 ^ 31 }
    ensures { MatchResult result (λ found. IsFront text.now found.0 found.1) (IfRefused (IsRefused text.now)) }
{
    let words = match tokens(alloc, text) {
        Ok(words) => words,
        Err(failure) => return Err(failure.map_refused(Refusal::from)),
    };
    let script = match parse_script(alloc, words.as_slice()) {
        Ok(script) => script,
        Err(failure) => return Err(failure.map_refused(Refusal::from)),
    };
    match resolve(alloc, &script) {
        Ok(scopes) => Ok((script, scopes)),
        Err(failure) => Err(failure.map_refused(Refusal::from)),
    }
}
