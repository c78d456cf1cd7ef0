ghost use Rattle.std.specs.Prelude.{◌≡◌, ◌*◌, ◌≤◌, length, IfOk};
ghost use Rattle.std.specs.Str.{chars};
ghost use Rattle.pt_strs.specs.Answer.{within, Answers};
ghost use Rattle.pt_strs.specs.Join.{copies, repeated, turns_of};

use crate::length::{LENGTH_LIMIT, char_count};
use crate::{Draft, StrErr};
use pt_base::{Memory, Text};
use std::alloc::Global;

/// How many times, none for a count below 0.
fn turns(count: i128) -> u128
    ensures { result ≡ turns_of count }
{
    if count < 0 {
        return 0;
    }
    count.unsigned_abs()
}

/// A text so many times.
#[tactic(auto, using(crate::proofs::JoinLemmas::copies_more))]
fn copies(alloc: Global, text: &str, count: usize) -> Result<Text, Memory>
    ensures { IfOk result (λ t. chars t ≡ copies count (chars text.now)) }
{
    let mut draft = Draft::new(alloc);
    for _turn in 0..count {
        draft.push_str(text)?;
    }
    Ok(draft.into_text())
}

/// A text so many times, none where the count is below 0 (Library Reference, "Common Sequence
/// Operations"). Length where that has more than 16,777,216 characters.
pub fn repeat(alloc: Global, text: &Text, count: i128) -> Result<Text, StrErr>
    ensures { Answers result (within (repeated count (chars text.now))) }
{
    let count = turns(count);
    let size = char_count(text.as_str());
    if size == 0 {
        return Ok(Text::new(alloc));
    }
    if count.saturating_mul(size as u128) > LENGTH_LIMIT as u128 {
        return Err(StrErr::Length);
    }
    Ok(copies(alloc, text.as_str(), count as usize)?)
}
