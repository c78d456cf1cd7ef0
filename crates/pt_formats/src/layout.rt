ghost use Rattle.std.specs.Prelude.{◌≡◌, ◌++◌, ◌-◌, ◌+◌, [], length, replicate, if◌then◌else◌};
ghost use Rattle.std.specs.Prelude.{IfOk, OnOk};
ghost use Rattle.std.specs.Str.{chars};
ghost use Rattle.pt_strs.specs.Answer.{within, Answers};
ghost use Rattle.pt_formats.specs.Layout.{align_or, base_of, fill_char, filled, formatted};
ghost use Rattle.pt_formats.specs.Layout.{formatted_int, formatted_text, is_for_text, is_text};
ghost use Rattle.pt_formats.specs.Layout.{laid, margins_of, not_inside, sign_text};
ghost use Rattle.pt_formats.specs.Spec.{spec_of};

use crate::FormatValue;
use crate::number::{digits_of, sign_char};
use crate::spec::{Align, Kind, Sign, Spec, read_spec};
use pt_base::{Memory, Text};
use pt_strs::{Draft, LENGTH_LIMIT, StrErr, char_count};
use std::alloc::Global;

/// How often the fill stands before the sign, behind it and at the end of a field.
#[derive(Clone, Copy, Debug)]
pub struct Margins {
    pub left: usize,
    pub inner: usize,
    pub right: usize,
}

fn margins_of(align: Align, room: usize) -> Margins
    ensures { result ≡ margins_of align room }
{
    match align {
        Align::Left => Margins {
            left: 0,
            inner: 0,
            right: room,
        },
        Align::Right => Margins {
            left: room,
            inner: 0,
            right: 0,
        },
        Align::Center => Margins {
            left: room / 2,
            inner: 0,
            right: room - room / 2,
        },
        Align::Inside => Margins {
            left: 0,
            inner: room,
            right: 0,
        },
    }
}

/// Writes a character so many times.
fn push_times(draft: &mut Draft, c: char, count: usize) -> Result<(), Memory>
    ensures { OnOk result (draft.new ≡ draft.old ++ replicate count c) }
{
    for _turn in 0..count {
        draft.push(c)?;
    }
    Ok(())
}

/// Writes a sign, if there is one.
fn push_sign(draft: &mut Draft, sign: Option<char>) -> Result<(), Memory>
    ensures { OnOk result (draft.new ≡ draft.old ++ sign_text sign) }
{
    match sign {
        Some(c) => draft.push(c),
        None => Ok(()),
    }
}

/// A sign and a text with their margins.
fn filled(
    alloc: Global,
    margins: Margins,
    fill: char,
    sign: Option<char>,
    body: &str,
) -> Result<Text, Memory>
    ensures { IfOk result
        (λ t. chars t ≡ filled margins fill (sign_text sign) (chars body.now)) }
{
    let mut draft = Draft::new(alloc);
    push_times(&mut draft, fill, margins.left)?;
    push_sign(&mut draft, sign)?;
    push_times(&mut draft, fill, margins.inner)?;
    draft.push_str(body)?;
    push_times(&mut draft, fill, margins.right)?;
    Ok(draft.into_text())
}

/// The number of characters of a sign.
fn sign_len(sign: Option<char>) -> usize
    ensures { result ≡ length (sign_text sign) }
{
    match sign {
        Some(_) => 1,
        None => 0,
    }
}

/// A sign and a text in a field of a width.
fn laid(
    alloc: Global,
    align: Align,
    fill: char,
    width: usize,
    sign: Option<char>,
    body: &str,
) -> Result<Text, StrErr>
    ensures { Answers result (within (laid align fill width (sign_text sign) (chars body.now))) }
{
    let size = sign_len(sign).saturating_add(char_count(body));
    if size > LENGTH_LIMIT || width > LENGTH_LIMIT {
        return Err(StrErr::Length);
    }
    let margins = margins_of(align, width.saturating_sub(size));
    Ok(filled(alloc, margins, fill, sign, body)?)
}

/// What a field is filled with.
fn fill_char(fill: Option<char>, zero: bool) -> char
    ensures { result ≡ fill_char fill zero }
{
    match fill {
        Some(c) => c,
        None if zero => '0',
        None => ' ',
    }
}

fn align_or(align: Option<Align>, default: Align) -> Align
    ensures { result ≡ align_or align default }
{
    match align {
        Some(align) => align,
        None => default,
    }
}

/// The base of a type of integers, and whether its letters are capitals.
fn base_of(kind: Kind) -> Option<(u128, bool)>
    ensures { result ≡ base_of kind }
{
    match kind {
        Kind::Absent | Kind::Decimal => Some((10, false)),
        Kind::Hex => Some((16, false)),
        Kind::UpperHex => Some((16, true)),
        Kind::Binary => Some((2, false)),
        Kind::Octal => Some((8, false)),
        Kind::String => None,
    }
}

/// Whether a spec is one of texts.
fn is_for_text(sign: Option<Sign>, align: Option<Align>, kind: Kind) -> bool
    ensures { result ≡ is_for_text sign align kind }
{
    match sign {
        Some(_) => false,
        None => match align {
            Some(Align::Inside) => false,
            _ => matches!(kind, Kind::Absent | Kind::String),
        },
    }
}

fn formatted_int(alloc: Global, number: i128, spec: Spec) -> Result<Text, StrErr>
    ensures { Answers result (formatted_int number spec (base_of spec.kind)) }
{
    let Some((base, upper)) = base_of(spec.kind) else {
        return Err(StrErr::Format);
    };
    let digits = digits_of(alloc, base, upper, number)?;
    let default = if spec.zero {
        Align::Inside
    } else {
        Align::Right
    };
    let align = align_or(spec.align, default);
    let fill = fill_char(spec.fill, spec.zero);
    let sign = sign_char(spec.sign, number);
    laid(alloc, align, fill, spec.width, sign, digits.as_str())
}

fn formatted_text(alloc: Global, text: &str, spec: Spec) -> Result<Text, StrErr>
    ensures { Answers result (formatted_text (chars text.now) spec) }
{
    if !is_for_text(spec.sign, spec.align, spec.kind) {
        return Err(StrErr::Format);
    }
    let align = align_or(spec.align, Align::Left);
    let fill = fill_char(spec.fill, spec.zero);
    laid(alloc, align, fill, spec.width, None, text)
}

/// A value as a spec says (Library Reference, "Format Specification Mini-Language"). Format for a
/// text that is no spec of the value, Length where that has more than 16,777,216 characters.
pub fn format(alloc: Global, value: &FormatValue, spec: &Text) -> Result<Text, StrErr>
    ensures { Answers result (formatted value.now (spec_of (chars spec.now))) }
{
    let Some(spec) = read_spec(spec.as_str()) else {
        return Err(StrErr::Format);
    };
    match value {
        FormatValue::Int(number) => formatted_int(alloc, *number, spec),
        FormatValue::Str(text) => formatted_text(alloc, text.as_str(), spec),
    }
}
