ghost use Rattle.std.specs.Prelude.{◌≡◌, ◌++◌, ◌∷◌, [], ◌==◌, ◌<◌, length, IfOk, OnOk};
ghost use Rattle.std.specs.List.{list_any};
ghost use Rattle.std.specs.Str.{chars};
ghost use Rattle.pt_strs.specs.Answer.{counted, within, Answers};
ghost use Rattle.pt_formats.specs.Repr.{digit_of, escape, escapes, is_hidden, letter_of, quote_of};
ghost use Rattle.pt_formats.specs.Repr.{quoted, represented};

use crate::number::digit;
use pt_base::{Memory, Text};
use pt_strs::{Draft, LENGTH_LIMIT, Scan, StrErr};
use std::alloc::Global;

/// Whether a text has a character.
fn has(text: &str, wanted: char) -> bool
    ensures { result ≡ list_any (λ c. c == wanted) (chars text.now) }
{
    let mut scan = Scan::new(text);
    while let Some(c) = scan.next() {
        if c == wanted {
            return true;
        }
    }
    false
}

/// The quote that stands around a text.
fn quote_of(text: &str) -> char
    ensures { result ≡ quote_of (chars text.now) }
{
    if has(text, '\'') && !has(text, '"') {
        '"'
    } else {
        '\''
    }
}

/// What stands behind the backslash for a character that is written so.
fn letter_of(quote: char, c: char) -> Option<char>
    ensures { result ≡ letter_of quote c }
{
    match c {
        '\\' => Some('\\'),
        '\n' => Some('n'),
        '\r' => Some('r'),
        '\t' => Some('t'),
        c if c == quote => Some(quote),
        _ => None,
    }
}

/// Whether a character is written by its number.
fn is_hidden(c: char) -> bool
    ensures { result ≡ is_hidden c }
{
    c < ' ' || ('\u{7f}'..='\u{a0}').contains(&c) || c == '\u{ad}'
}

/// How many characters stand for one.
fn escape_len(quote: char, c: char) -> usize
    ensures { result ≡ length (escape quote c) }
{
    if letter_of(quote, c).is_some() {
        return 2;
    }
    if is_hidden(c) {
        return 4;
    }
    1
}

/// Writes what stands for a character.
fn push_escape(draft: &mut Draft, quote: char, c: char) -> Result<(), Memory>
    ensures { OnOk result (draft.new ≡ draft.old ++ escape quote c) }
{
    if let Some(letter) = letter_of(quote, c) {
        draft.push('\\')?;
        return draft.push(letter);
    }
    if !is_hidden(c) {
        return draft.push(c);
    }
    let code = c as u128;
    draft.push('\\')?;
    draft.push('x')?;
    draft.push(digit(false, code / 16))?;
    draft.push(digit(false, code % 16))
}

/// How many characters stand for a text, between its quotes.
fn escapes_len(quote: char, text: &str) -> usize
    ensures { result ≡ counted (length (escapes quote (chars text.now))) }
{
    let mut sum = 0usize;
    let mut scan = Scan::new(text);
    while let Some(c) = scan.next() {
        sum = sum.saturating_add(escape_len(quote, c));
    }
    sum
}

/// Writes what stands for a text, between its quotes.
fn push_escapes(draft: &mut Draft, quote: char, text: &str) -> Result<(), Memory>
    ensures { OnOk result (draft.new ≡ draft.old ++ escapes quote (chars text.now)) }
{
    let mut scan = Scan::new(text);
    while let Some(c) = scan.next() {
        push_escape(draft, quote, c)?;
    }
    Ok(())
}

/// A text in quotes.
fn quoted(alloc: Global, quote: char, text: &str) -> Result<Text, Memory>
    ensures { IfOk result (λ t. chars t ≡ quoted quote (chars text.now)) }
{
    let mut draft = Draft::new(alloc);
    draft.push(quote)?;
    push_escapes(&mut draft, quote, text)?;
    draft.push(quote)?;
    Ok(draft.into_text())
}

/// A text as a string literal (Library Reference, `repr`). Length where that has more than
/// 16,777,216 characters.
pub fn repr(alloc: Global, text: &Text) -> Result<Text, StrErr>
    ensures { Answers result (within (represented (chars text.now))) }
{
    let quote = quote_of(text.as_str());
    if escapes_len(quote, text.as_str()) > LENGTH_LIMIT - 2 {
        return Err(StrErr::Length);
    }
    Ok(quoted(alloc, quote, text.as_str())?)
}
