ghost use Rattle.std.specs.Prelude.{◌≡◌, ℕ, ◌+◌, ◌*◌, ◌<◌, ◌≤◌, ◌^◌, ◌==◌, ◌||◌, pos, [], ◌∷◌, length, take, drop, MatchOption, MatchResult};
ghost use Rattle.std.specs.Char.{digit_value, is_digit as is_digit_of};
ghost use Rattle.pt_literals.specs.Numbers.{is_grouped as grouped_from, are_zeros as zeros_alone, leads_well as zeros_lead_well, are_digits as are_digits_of, value_from, radix_by as radix_of_letter, radix_of as radix_at, behind_one as behind_first, behind_prefix as text_behind_prefix, may_follow as follows, digits_len as digits_at, begins_digit as digit_first, is_exponent as exponent_at, makes_float as float_at, is_fraction as fraction_at};
ghost use Rattle.pt_literals.specs.Literals.{IsBegun, faulty, number as number_here, number_by as number_of, number_at as number_begun};

use crate::source::first_spot;
use crate::{Begun, LexErr, Lexeme, Spot, TokenKind};

/// The value of a digit, letters from ten on; 36 for any other character.
pub(crate) fn digit(c: char) -> u32
    ensures { result ≡ digit_value c }
{
    match c.to_digit(36) {
        Some(value) => value,
        None => 36,
    }
}

/// Whether the character is a digit.
pub(crate) fn is_digit(c: char, radix: u32) -> bool
    ensures { result ≡ is_digit_of c radix }
{
    digit(c) < radix
}

/// Whether these are digits with single underscores between them.
fn is_grouped(radix: u32, may_come: bool, digits: &[Spot]) -> bool
    ensures { result ≡ grouped_from radix may_come digits.now }
{
    let mut comes = may_come;
    for spot in digits {
        if is_digit(spot.char, radix) {
            comes = true;
        } else if comes && spot.char == '_' {
            comes = false;
        } else {
            return false;
        }
    }
    comes
}

/// Whether there are zeros alone, and underscores.
fn are_zeros(digits: &[Spot]) -> bool
    ensures { result ≡ zeros_alone digits.now }
{
    digits
        .iter()
        .all(|spot| spot.char == '0' || spot.char == '_')
}

/// Whether no zero leads, unless there are zeros alone.
fn leads_well(digits: &[Spot]) -> bool
    ensures { result ≡ zeros_lead_well digits.now }
{
    let Some((first, others)) = first_spot(digits) else {
        return false;
    };
    first.char != '0' || are_zeros(others)
}

/// Whether these are the digits of an integer, behind its prefix (Language Reference 2.4.5).
fn are_digits(radix: u32, digits: &[Spot]) -> bool
    ensures { result ≡ are_digits_of radix digits.now }
{
    if digits.is_empty() {
        return false;
    }
    if radix == 10 {
        return is_grouped(10, false, digits) && leads_well(digits);
    }
    is_grouped(radix, true, digits)
}

/// One digit more; `None` from 2^127 on.
fn with_digit(value: u128, radix: u32, digit: u32) -> Option<u128>
    ensures { MatchOption result (2 ^ 127 ≤ value * radix + digit) (λ v. (v ≡ value * radix + digit) × (v < 2 ^ 127)) }
{
    let larger = value.checked_mul(u128::from(radix))?;
    let sum = larger.checked_add(u128::from(digit))?;
    if sum > i128::MAX as u128 {
        return None;
    }
    Some(sum)
}

/// The number that digits write; `None` from 2^127 on.
pub(crate) fn value(radix: u32, digits: &[Spot]) -> Option<u128>
    requires { 0 < radix }
    ensures { MatchOption result (2 ^ 127 ≤ value_from radix 0 digits.now) (λ v. (v ≡ value_from radix 0 digits.now) × (v < 2 ^ 127)) }
{
    let mut sum = 0;
    for spot in digits {
        if spot.char != '_' {
            let Some(larger) = with_digit(sum, radix, digit(spot.char)) else {
                return None;
            };
            sum = larger;
        }
    }
    Some(sum)
}

fn radix_by(letter: char) -> u32
    ensures value { result ≡ radix_of_letter letter }
    ensures some { 0 < result }
{
    if letter == 'x' || letter == 'X' {
        16
    } else if letter == 'o' || letter == 'O' {
        8
    } else if letter == 'b' || letter == 'B' {
        2
    } else {
        10
    }
}

/// The radix of an integer that begins so.
fn radix_of(text: &[Spot]) -> u32
    ensures value { result ≡ radix_at text.now }
    ensures some { 0 < result }
{
    let Some((first, others)) = first_spot(text) else {
        return 10;
    };
    let Some((letter, _)) = first_spot(others) else {
        return 10;
    };
    if first.char == '0' {
        return radix_by(letter.char);
    }
    10
}

pub(crate) fn behind_one(text: &[Spot]) -> &[Spot]
    ensures { result.now ≡ behind_first text.now }
{
    match first_spot(text) {
        Some((_, rest)) => rest,
        None => text,
    }
}

fn behind_prefix(radix: u32, text: &[Spot]) -> &[Spot]
    ensures { result.now ≡ text_behind_prefix radix text.now }
{
    if radix == 10 {
        return text;
    }
    behind_one(behind_one(text))
}

/// Whether an integer takes this character.
fn may_follow(radix: u32, spot: Spot) -> bool
    ensures { result ≡ follows radix spot }
{
    is_digit(spot.char, radix) || is_digit(spot.char, 10) || spot.char == '_'
}

/// How many characters an integer takes, behind its prefix.
fn digits_len(radix: u32, text: &[Spot]) -> usize
    ensures value { result ≡ digits_at radix text.now }
    ensures within { result ≤ length text.now }
{
    text.iter()
        .take_while(|spot| may_follow(radix, **spot))
        .count()
}

fn begins_digit(text: &[Spot]) -> bool
    ensures { result ≡ digit_first text.now }
{
    match first_spot(text) {
        Some((spot, _)) => is_digit(spot.char, 10),
        None => false,
    }
}

/// Whether an exponent goes on here, behind its letter.
fn is_exponent(text: &[Spot]) -> bool
    ensures { result ≡ exponent_at text.now }
{
    match first_spot(text) {
        Some((spot, rest)) => {
            is_digit(spot.char, 10)
                || ((spot.char == '+' || spot.char == '-') && begins_digit(rest))
        }
        None => false,
    }
}

/// Whether digits in front of the text are no integer, but a floating point or an imaginary number
/// (Language Reference 2.4.6, 2.4.7).
fn makes_float(text: &[Spot]) -> bool
    ensures { result ≡ float_at text.now }
{
    match first_spot(text) {
        Some((spot, rest)) => {
            spot.char == '.'
                || spot.char == 'j'
                || spot.char == 'J'
                || ((spot.char == 'e' || spot.char == 'E') && is_exponent(rest))
        }
        None => false,
    }
}

fn is_fraction(spot: Spot, rest: &[Spot]) -> bool
    ensures { result ≡ fraction_at spot rest.now }
{
    spot.char == '.' && begins_digit(rest)
}

/// The integer of some digits in front of a rest of the text.
fn number_by<'a>(
    spot: Spot,
    radix: u32,
    digits: &[Spot],
    rest: &'a [Spot],
) -> Result<Begun<'a>, LexErr>
    requires { 0 < radix }
    ensures { MatchResult result (λ b. IsBegun b (number_of spot radix digits.now rest.now)) (λ e. number_of spot radix digits.now rest.now ≡ faulty e) }
{
    if !are_digits(radix, digits) {
        return Err(LexErr::BadNumber { at: spot.at });
    }
    if radix == 10 && makes_float(rest) {
        return Err(LexErr::Excluded { line: spot.line });
    }
    let Some(value) = value(radix, digits) else {
        return Err(LexErr::Limit { line: spot.line });
    };
    Ok(Begun::Known(Lexeme::Word(TokenKind::Int(value as i128)), rest))
}

/// The number that begins with a digit.
fn number(spot: Spot, text: &[Spot]) -> Result<Begun<'_>, LexErr>
    ensures { MatchResult result (λ b. IsBegun b (number_here spot text.now)) (λ e. number_here spot text.now ≡ faulty e) }
{
    let radix = radix_of(text);
    let behind = behind_prefix(radix, text);
    let (digits, rest) = behind.split_at(digits_len(radix, behind));
    number_by(spot, radix, digits, rest)
}

/// The number that begins at the front: with a digit, or with a point and a digit.
pub(crate) fn number_at(text: &[Spot]) -> Result<Begun<'_>, LexErr>
    ensures { MatchResult result (λ b. IsBegun b (number_begun text.now)) (λ e. number_begun text.now ≡ faulty e) }
{
    let Some((spot, rest)) = first_spot(text) else {
        return Ok(Begun::Nothing);
    };
    if is_digit(spot.char, 10) {
        return number(spot, text);
    }
    if is_fraction(spot, rest) {
        return Err(LexErr::Excluded { line: spot.line });
    }
    Ok(Begun::Nothing)
}
