ghost use Rattle.std.specs.Prelude.{◌≡◌, ℕ, List, Result, IfOk, encode_utf8_all};
ghost use Rattle.std.specs.Result.{IsErr};
ghost use Rattle.std.specs.Str.{chars};
ghost use Rattle.pt_strs.specs.declared.error.StrErr.{StrErr};
ghost use Rattle.pt_strs.specs.declared.error.StrErr.TheVariants.{Memory as out_of_memory};
ghost use Rattle.pt_strs.specs.Answer.{Answers};
ghost use Rattle.pt_text_operations.specs.Answers.{answered, refused};

use pt_base::{Memory, Text, What};
use pt_content::{Content, NewObject, VALUE_ERROR, bad_argument};
use pt_strs::StrErr;
use std::alloc::Global;

/// A text is what its characters spell.
pub fn is_spelled(text: &Text)
    ensures { encode_utf8_all (chars text.now) ≡ text.now }
{
    let _text = text.as_str();
}

/// What is answered where there is no text.
pub fn refused(alloc: Global, error: StrErr) -> Result<Content, Memory>
    ensures value { IfOk result (λ content. content ≡ refused error) }
    ensures memory { error ≡ out_of_memory → IsErr result }
{
    match error {
        StrErr::Length => Ok(Content::Outside(What::Length)),
        StrErr::Format => Ok(Content::Outside(What::Format)),
        StrErr::Empty => bad_argument(alloc, VALUE_ERROR),
        StrErr::Memory => Err(Memory),
    }
}

/// A new text, or what keeps it from being there: Outside with the cause Length beyond the greatest
/// length, with the cause Format for a spec that isn't listed, a ValueError for an empty separator.
pub fn answered(alloc: Global, answer: Result<Text, StrErr>) -> Result<Content, Memory>
    ensures { (wanted : Result (List ℕ) StrErr)
        → Answers answer wanted → IfOk result (λ content. content ≡ answered wanted) }
{
    match answer {
        Ok(text) => {
            is_spelled(&text);
            Ok(Content::New(NewObject::Text(text)))
        }
        Err(error) => refused(alloc, error),
    }
}
