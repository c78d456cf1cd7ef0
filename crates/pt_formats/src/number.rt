ghost use Rattle.std.specs.Prelude.{◌≡◌, ◌++◌, ◌≤◌, ◌<◌, IfOk, OnOk};
ghost use Rattle.std.specs.Str.{chars};
ghost use Rattle.pt_formats.specs.Number.{digits, digits_of, mark_of, sign_char};
ghost use Rattle.pt_formats.specs.Repr.{digit_of};

use crate::spec::Sign;
use pt_base::{Memory, Text};
use pt_strs::Draft;
use std::alloc::Global;

/// The digit of a number in a base up to 16.
pub fn digit(upper: bool, number: u128) -> char
    requires { number < 16 }
    ensures { result ≡ digit_of upper number }
{
    let number = number as u8;
    if number < 10 {
        return (48 + number) as char;
    }
    if upper {
        return (55 + number) as char;
    }
    (87 + number) as char
}

/// Writes the digits of a number in a base, at most so many.
#[tactic(auto, unfolding(crate::specs::Number::digits))]
fn push_digits(
    draft: &mut Draft,
    most: u32,
    base: u128,
    upper: bool,
    number: u128,
) -> Result<(), Memory>
    requires low { 2 ≤ base }
    requires high { base ≤ 16 }
    ensures { OnOk result (draft.new ≡ draft.old ++ digits most base upper number) }
{
    if most == 0 {
        return Ok(());
    }
    if number < base {
        return draft.push(digit(upper, number));
    }
    push_digits(draft, most - 1, base, upper, number / base)?;
    draft.push(digit(upper, number % base))
}

/// The digits of a number without its sign.
pub fn digits_of(alloc: Global, base: u128, upper: bool, number: i128) -> Result<Text, Memory>
    requires low { 2 ≤ base }
    requires high { base ≤ 16 }
    ensures { IfOk result (λ t. chars t ≡ digits_of base upper number) }
{
    let mut draft = Draft::new(alloc);
    push_digits(&mut draft, 128, base, upper, number.unsigned_abs())?;
    Ok(draft.into_text())
}

/// What stands before the digits of a number that isn't negative.
fn mark_of(sign: Option<Sign>) -> Option<char>
    ensures { result ≡ mark_of sign }
{
    match sign {
        Some(Sign::Plus) => Some('+'),
        Some(Sign::Blank) => Some(' '),
        Some(Sign::Minus) | None => None,
    }
}

/// What stands before the digits of a number.
pub fn sign_char(sign: Option<Sign>, number: i128) -> Option<char>
    ensures { result ≡ sign_char sign number }
{
    if number < 0 {
        return Some('-');
    }
    mark_of(sign)
}
