ghost use Rattle.std.specs.Prelude.{MatchOption, MatchResult};
ghost use Rattle.pt_literals.specs.declared.source.TextEnd.{TextEnd as End};
ghost use Rattle.pt_base.specs.Failures.{IfRefused};
ghost use Rattle.pt_lexer.specs.Progress.{EndsInside, IsSpoilt, StringRead};

use crate::{LexErr, Part, Spot};
use pt_base::{Failure, Text};
use pt_literals::{behind_end, first_spot, piece, push};
use std::alloc::Global;

/// Reads a part of a string: its characters, and the text behind it; `None` where the text ends
/// in it.
pub(crate) fn string<'a>(
    alloc: Global,
    part: Part,
    text: &'a [Spot],
) -> Result<Option<(Text, &'a [Spot])>, Failure<LexErr>>
    ensures { (end : End) → MatchResult result
        (λ found. MatchOption found (EndsInside end part text.now) (λ r. StringRead part text.now r.0 r.1.now))
        (IfRefused (IsSpoilt end part text.now)) }
{
    let mut value = String::new(alloc);
    let mut rest = text;
    while let Some((spot, others)) = first_spot(rest) {
        if let Some(behind) = behind_end(part, spot, rest, others) {
            return Ok(Some((Text::from_str(alloc, value.as_str())?, behind)));
        }
        let (chars, behind) = piece(part, spot, rest, others)?;
        push(&mut value, chars)?;
        rest = behind;
    }
    Ok(None)
}
