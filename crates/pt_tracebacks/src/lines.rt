//! The lines of a source.

ghost use Rattle.std.specs.Prelude.{◌≡◌, ◌≤◌, ◌<◌, [], IfOk, MatchOption, length, map};
ghost use Rattle.std.specs.Option.{option_map};
ghost use Rattle.pt_literals.specs.Source.{is_blank};
ghost use Rattle.pt_strs.specs.Strip.{without_front, without_end};
ghost use Rattle.pt_tracebacks.specs.FirstLine.{first_len, lines_behind};
ghost use Rattle.pt_tracebacks.specs.Lines.{begins_with_feed, lines, numbered, source_lines};
ghost use Rattle.pt_tracebacks.specs.Lines.{without_blanks};

use pt_base::{Line, Memory};
use pt_literals::{ends_line_char, is_blank_char};
use std::alloc::Global;

/// The length of the first line of a text, without its end.
fn first_len(text: &[u8]) -> usize
    ensures len { result ≡ first_len text.now }
    ensures within { result ≤ length text.now }
{
    for (i, byte) in text.iter().enumerate() {
        if ends_line_char(*byte as char) {
            return i;
        }
    }
    text.len()
}

fn begins_with_feed(text: &[u8]) -> bool
    ensures { result ≡ begins_with_feed text.now }
{
    match text {
        [first, ..] => *first == 10,
        [] => false,
    }
}

/// What stands behind the end of a line at the front of a text, if anything does.
fn behind_end(text: &[u8]) -> Option<&[u8]>
    ensures { MatchOption result (lines_behind text.now ≡ [])
        (λ b. (lines_behind text.now ≡ lines b.now) × (length b.now < length text.now)) }
{
    match text {
        [first, rest @ ..] => {
            if *first == 13 && begins_with_feed(rest) {
                Some(&rest[1..])
            } else {
                Some(rest)
            }
        }
        [] => None,
    }
}

/// The lines of a text, in time linear in it.
fn lines<'a>(alloc: Global, text: &'a [u8]) -> Result<Vec<&'a [u8]>, Memory>
    ensures { IfOk result (λ v. map (λ l. l.now) v.items ≡ lines text.now) }
{
    let mut lines = Vec::new(alloc);
    let mut rest = text;
    loop {
        let len = first_len(rest);
        lines.push(&rest[..len])?;
        match behind_end(&rest[len..]) {
            Some(behind) => rest = behind,
            None => return Ok(lines),
        }
    }
}

/// The lines of a source, none where there is no source.
pub fn source_lines<'a>(alloc: Global, source: Option<&'a [u8]>) -> Result<Vec<&'a [u8]>, Memory>
    ensures { IfOk result (λ v.
        map (λ l. l.now) v.items ≡ source_lines (option_map (λ s. s.now) source.entry)) }
{
    match source {
        Some(text) => lines(alloc, text),
        None => Ok(Vec::new(alloc)),
    }
}

/// The line of a number, from 1 on; the empty one where there is none.
fn numbered<'a>(lines: &[&'a [u8]], number: Line) -> &'a [u8]
    ensures { result.now ≡ numbered (map (λ l. l.now) lines.now) number.0 }
{
    if number.0 == 0 {
        return &[];
    }
    match lines.get(number.0 as usize - 1) {
        Some(line) => line,
        None => &[],
    }
}

fn without_front(line: &[u8]) -> &[u8]
    ensures { result.now ≡ without_front is_blank line.now }
{
    let mut rest = line;
    while let [first, behind @ ..] = rest {
        if !is_blank_char(*first as char) {
            return rest;
        }
        rest = behind;
    }
    rest
}

fn without_end(line: &[u8]) -> &[u8]
    ensures { result.now ≡ without_end is_blank line.now }
{
    let mut rest = line;
    while let [before @ .., last] = rest {
        if !is_blank_char(*last as char) {
            return rest;
        }
        rest = before;
    }
    rest
}

/// The line of a number without its outer blanks.
pub fn shown<'a>(lines: &[&'a [u8]], number: Line) -> &'a [u8]
    ensures { result.now ≡ without_blanks (numbered (map (λ l. l.now) lines.now) number.0) }
{
    without_end(without_front(numbered(lines, number)))
}
