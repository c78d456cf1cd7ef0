ghost use Rattle.std.specs.Prelude.{◌≡◌, ◌++◌, ◌+◌, ◌≤◌, length, map, IfOk, OnOk};
ghost use Rattle.std.specs.Str.{chars};
ghost use Rattle.pt_strs.specs.Answer.{counted, within, Answers};
ghost use Rattle.pt_strs.specs.Join.{followed, joined};

use crate::length::{LENGTH_LIMIT, char_count};
use crate::{Draft, StrErr};
use pt_base::{Memory, Text};
use std::alloc::Global;

/// A length with that of parts, each behind a separator.
fn followed_len(count: usize, sep: &str, parts: &[Text]) -> usize
    ensures { result ≡ counted (count + length (followed (chars sep.now) (map chars parts.now))) }
{
    let between = char_count(sep);
    let mut sum = count;
    for part in parts {
        sum = sum.saturating_add(between);
        sum = sum.saturating_add(char_count(part.as_str()));
    }
    sum
}

/// Writes parts, each behind a separator.
fn push_followed(draft: &mut Draft, sep: &str, parts: &[Text]) -> Result<(), Memory>
    ensures { OnOk result
        (draft.new ≡ draft.old ++ followed (chars sep.now) (map chars parts.now)) }
{
    for part in parts {
        draft.push_str(sep)?;
        draft.push_str(part.as_str())?;
    }
    Ok(())
}

/// The length of texts with a separator between them.
fn joined_len(sep: &str, parts: &[Text]) -> usize
    ensures { result ≡ counted (length (joined (chars sep.now) (map chars parts.now))) }
{
    match parts {
        [] => 0,
        [first, rest @ ..] => followed_len(char_count(first.as_str()), sep, rest),
    }
}

/// Texts with a separator between them.
fn joined(alloc: Global, sep: &str, parts: &[Text]) -> Result<Text, Memory>
    ensures { IfOk result (λ text. chars text ≡ joined (chars sep.now) (map chars parts.now)) }
{
    let mut draft = Draft::new(alloc);
    if let [first, rest @ ..] = parts {
        draft.push_str(first.as_str())?;
        push_followed(&mut draft, sep, rest)?;
    }
    Ok(draft.into_text())
}

/// The texts of a list with this one between them (Library Reference, `str.join`). Length where
/// that has more than 16,777,216 characters.
#[tactic(auto, using(crate::proofs::AnswerLemmas::bounds))]
pub fn join(alloc: Global, sep: &Text, parts: &[Text]) -> Result<Text, StrErr>
    ensures { Answers result (within (joined (chars sep.now) (map chars parts.now))) }
{
    if joined_len(sep.as_str(), parts) > LENGTH_LIMIT {
        return Err(StrErr::Length);
    }
    Ok(joined(alloc, sep.as_str(), parts)?)
}
