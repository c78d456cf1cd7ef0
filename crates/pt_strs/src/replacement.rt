ghost use Rattle.std.specs.Prelude.{◌≡◌, ◌<◌, length, IfOk};
ghost use Rattle.std.specs.Str.{chars};
ghost use Rattle.pt_strs.specs.Answer.{counted, within, Answers};
ghost use Rattle.pt_strs.specs.Cut.{all_pieces};
ghost use Rattle.pt_strs.specs.Join.{followed, joined};
ghost use Rattle.pt_strs.specs.Replace.{apart, replaced};

use crate::length::{LENGTH_LIMIT, char_count};
use crate::{Draft, Scan, StrErr};
use pt_base::{Memory, Text};
use std::alloc::Global;

/// The length of a text with each place of a part replaced.
fn replaced_len(text: &str, old: &str, new: &str) -> usize
    requires { 0 < length (chars old.now) }
    ensures { result
        ≡ counted
        (length (joined (chars new.now) (all_pieces (chars old.now) (chars text.now)))) }
{
    let size = char_count(new);
    let mut sum = 0usize;
    let mut scan = Scan::new(text);
    while let Some(front) = scan.before(old) {
        sum = sum.saturating_add(char_count(front));
        sum = sum.saturating_add(size);
    }
    sum.saturating_add(char_count(scan.as_str()))
}

/// A text with each place of a part replaced.
fn with_replaced(alloc: Global, text: &str, old: &str, new: &str) -> Result<Text, Memory>
    requires { 0 < length (chars old.now) }
    ensures { IfOk result
        (λ t. chars t ≡ joined (chars new.now) (all_pieces (chars old.now) (chars text.now))) }
{
    let mut draft = Draft::new(alloc);
    let mut scan = Scan::new(text);
    while let Some(front) = scan.before(old) {
        draft.push_str(front)?;
        draft.push_str(new)?;
    }
    draft.push_str(scan.as_str())?;
    Ok(draft.into_text())
}

/// The length of a text with another before each character and at the end.
fn spread_len(text: &str, new: &str) -> usize
    ensures { result ≡ counted (length (followed (chars new.now) (apart (chars text.now)))) }
{
    let size = char_count(new);
    let mut sum = size;
    let mut scan = Scan::new(text);
    while let Some(_c) = scan.next() {
        sum = sum.saturating_add(1);
        sum = sum.saturating_add(size);
    }
    sum
}

/// A text with another before each character and at the end.
fn spread(alloc: Global, text: &str, new: &str) -> Result<Text, Memory>
    ensures { IfOk result (λ t. chars t ≡ followed (chars new.now) (apart (chars text.now))) }
{
    let mut draft = Draft::new(alloc);
    draft.push_str(new)?;
    let mut scan = Scan::new(text);
    while let Some(c) = scan.next() {
        draft.push(c)?;
        draft.push_str(new)?;
    }
    Ok(draft.into_text())
}

/// A text with a new part at each place of an old one; an empty old part stands before each
/// character and at the end (Library Reference, `str.replace`). Length where that has more than
/// 16,777,216 characters.
#[tactic(auto, using(crate::proofs::AnswerLemmas::bounds))]
pub fn replace(alloc: Global, text: &Text, old: &Text, new: &Text) -> Result<Text, StrErr>
    ensures { Answers result (within (replaced (chars old.now) (chars new.now) (chars text.now))) }
{
    if char_count(old.as_str()) == 0 {
        if spread_len(text.as_str(), new.as_str()) > LENGTH_LIMIT {
            return Err(StrErr::Length);
        }
        return Ok(spread(alloc, text.as_str(), new.as_str())?);
    }
    if replaced_len(text.as_str(), old.as_str(), new.as_str()) > LENGTH_LIMIT {
        return Err(StrErr::Length);
    }
    Ok(with_replaced(alloc, text.as_str(), old.as_str(), new.as_str())?)
}
