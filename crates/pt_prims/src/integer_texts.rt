//! The integer that a text is.

ghost use Rattle.std.specs.Prelude.{◌≡◌, true, false, IfOk};
ghost use Rattle.std.specs.Option.{option_map};
ghost use Rattle.std.specs.Str.{chars};
ghost use Rattle.pt_ints.specs.Answer.{ranged};
ghost use Rattle.pt_strs.specs.Blank.{is_blank};
ghost use Rattle.pt_strs.specs.Strip.{without_end, without_front};
ghost use Rattle.pt_prims.specs.IntegerTexts.{number_of, saturated, signed, signed_number};
ghost use Rattle.pt_prims.specs.IntegerTexts.{text_integer, without_blanks};

use crate::arithmetic::integer_content;
use pt_base::Memory;
use pt_content::{Content, VALUE_ERROR, bad_argument};
use pt_heap::Str;
use pt_ints::IntAns;
use pt_strs::{Scan, is_blank};
use std::alloc::Global;

/// What is left behind the blanks at the front.
fn without_front<'a>(scan: &Scan<'a>) -> Scan<'a>
    ensures { result ≡ without_front is_blank scan.now }
{
    let mut rest = scan.again();
    loop {
        let mut ahead = rest.again();
        match ahead.next() {
            Some(c) if is_blank(c) => rest = ahead,
            _ => return rest,
        }
    }
}

/// What is left before the blanks at the end.
fn without_end<'a>(scan: &Scan<'a>) -> Scan<'a>
    ensures { result ≡ without_end is_blank scan.now }
{
    let mut rest = scan.again();
    loop {
        let mut ahead = rest.again();
        match ahead.next_back() {
            Some(c) if is_blank(c) => rest = ahead,
            _ => return rest,
        }
    }
}

/// The number of decimal digits with single underscores between them, as far as it has 128 bits.
fn number_of(scan: &mut Scan) -> Option<u128>
    ensures { result ≡ option_map saturated (number_of scan.old) }
{
    let mut number = 0u128;
    let mut behind_digit = false;
    while let Some(c) = scan.next() {
        if c.is_ascii_digit() {
            number = number.saturating_mul(10).saturating_add(c as u128 - 48);
            behind_digit = true;
        } else if behind_digit && c == '_' {
            behind_digit = false;
        } else {
            return None;
        }
    }
    if behind_digit { Some(number) } else { None }
}

/// A number with its sign, if that is an integer of 128 bits.
fn ranged(negative: bool, number: u128) -> IntAns
    ensures { result ≡ ranged (signed negative number) }
{
    let exact = if negative {
        0i128.checked_sub_unsigned(number)
    } else {
        0i128.checked_add_unsigned(number)
    };
    match exact {
        Some(integer) => IntAns::Value(integer),
        None => IntAns::Range,
    }
}

fn behind_sign(negative: bool, scan: &mut Scan) -> Option<IntAns>
    ensures { result ≡ option_map ranged (option_map (signed negative) (number_of scan.old)) }
{
    match number_of(scan) {
        Some(number) => Some(ranged(negative, number)),
        None => None,
    }
}

fn signed_number(scan: &Scan) -> Option<IntAns>
    ensures { result ≡ option_map ranged (signed_number scan.now) }
{
    let mut behind = scan.again();
    match behind.next() {
        Some('-') => behind_sign(true, &mut behind),
        Some('+') => behind_sign(false, &mut behind),
        Some(_) => behind_sign(false, &mut scan.again()),
        None => None,
    }
}

/// `int` of a text.
pub fn text_integer(alloc: Global, text: &Str) -> Result<Content, Memory>
    ensures { IfOk result (λ content. content ≡ text_integer text.now) }
{
    let scan = without_end(&without_front(&Scan::new(text.text().as_str())));
    match signed_number(&scan) {
        Some(answer) => integer_content(alloc, answer),
        None => bad_argument(alloc, VALUE_ERROR),
    }
}
