ghost use Rattle.std.specs.Prelude.{◌≡◌, length};
ghost use Rattle.std.specs.Str.{chars};
ghost use Rattle.pt_strs.specs.Answer.{within, Answers};

use crate::StrErr;
use pt_base::Text;
use std::alloc::Global;

/// The most characters that a text may have.
pub const LENGTH_LIMIT: usize = 16_777_216;

/// The number of characters.
pub fn char_count(text: &str) -> usize
    ensures { result ≡ length (chars text.now) }
{
    text.chars().count()
}

/// A text of its own, if it isn't too long.
pub fn bounded(alloc: Global, text: &str) -> Result<Text, StrErr>
    ensures { Answers result (within (chars text.now)) }
{
    if char_count(text) > LENGTH_LIMIT {
        return Err(StrErr::Length);
    }
    Ok(Text::from_str(alloc, text)?)
}
