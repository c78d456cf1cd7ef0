ghost use Rattle.std.specs.Prelude.{◌≡◌, nat_lt, true, false, IfOk, IfErr, MatchOption};
ghost use Rattle.std.specs.Str.{is_utf8};
ghost use Rattle.pt_code.specs.File.{bound};
ghost use Rattle.pt_code.specs.Reading.{Gives, kept, string_at, number_at, byte_at, below_at, flag_at, start_at, mark_at, handler_at, taken_at, text_at, name_at, integer_at, const_at, kind_at, rest_at};

use crate::instructions::bound;
use crate::parts::Bad;
use crate::{BlockKind, Const, Rest, Start};
use pt_base::{ActNo, Line, Pc, Text};
use pt_instr::TextNo;
use pt_ranges::{ActMark, Handler};
use std::alloc::Global;

#[tactic(auto, unfolding(crate::specs::Reading::number_at))]
pub fn number_at(bytes: &[u8]) -> Result<(u32, &[u8]), Bad>
    ensures { Gives (λ x. (x.0, x.1.now)) result (number_at bytes.now) }
{
    match bytes {
        [a, b, c, d, rest @ ..] => Ok((u32::from_le_bytes([*a, *b, *c, *d]), rest)),
        _ => Err(Bad::Short),
    }
}

#[tactic(auto, unfolding(crate::specs::Reading::byte_at))]
pub fn byte_at(bytes: &[u8]) -> Result<(u8, &[u8]), Bad>
    ensures { Gives (λ x. (x.0, x.1.now)) result (byte_at bytes.now) }
{
    match bytes {
        [byte, rest @ ..] => Ok((*byte, rest)),
        _ => Err(Bad::Short),
    }
}

#[tactic(auto, unfolding(crate::specs::Reading::below_at))]
pub fn below_at(bound: usize, bytes: &[u8]) -> Result<(u32, &[u8]), Bad>
    ensures { Gives (λ x. (x.0, x.1.now)) result (below_at bound bytes.now) }
{
    let (n, rest) = number_at(bytes)?;
    if (n as usize) < bound {
        Ok((n, rest))
    } else {
        Err(Bad::Field(bytes.len()))
    }
}

#[tactic(auto, unfolding(crate::specs::Reading::flag_at))]
fn flag_at(bytes: &[u8]) -> Result<(bool, &[u8]), Bad>
    ensures { Gives (λ x. (x.0, x.1.now)) result (flag_at bytes.now) }
{
    match bytes {
        [0, rest @ ..] => Ok((false, rest)),
        [1, rest @ ..] => Ok((true, rest)),
        [] => Err(Bad::Short),
        _ => Err(Bad::Field(bytes.len())),
    }
}

#[tactic(auto, unfolding(crate::specs::Reading::start_at))]
pub fn start_at(bytes: &[u8]) -> Result<(Start, &[u8]), Bad>
    ensures { Gives (λ x. (x.0, x.1.now)) result (start_at bytes.now) }
{
    let (pc, rest) = number_at(bytes)?;
    let (line, rest) = number_at(rest)?;
    let (pc, line) = (Pc(pc), Line(line));
    Ok((Start { pc, line }, rest))
}

#[tactic(auto, unfolding(crate::specs::Reading::mark_at))]
pub fn mark_at(bytes: &[u8]) -> Result<(ActMark, &[u8]), Bad>
    ensures { Gives (λ x. (x.0, x.1.now)) result (mark_at bytes.now) }
{
    let (pc, rest) = number_at(bytes)?;
    let (act, rest) = number_at(rest)?;
    let (line, rest) = number_at(rest)?;
    let (again, rest) = flag_at(rest)?;
    let (pc, act, line) = (Pc(pc), ActNo(act), Line(line));
    Ok((
        ActMark {
            pc,
            act,
            line,
            again,
        },
        rest,
    ))
}

#[tactic(auto, unfolding(crate::specs::Reading::handler_at))]
pub fn handler_at(bytes: &[u8]) -> Result<(Handler, &[u8]), Bad>
    ensures { Gives (λ x. (x.0, x.1.now)) result (handler_at bytes.now) }
{
    let (from, rest) = number_at(bytes)?;
    let (to, rest) = number_at(rest)?;
    let (target, rest) = number_at(rest)?;
    let (depth, rest) = number_at(rest)?;
    let (always, rest) = flag_at(rest)?;
    let (from, to, target) = (Pc(from), Pc(to), Pc(target));
    Ok((
        Handler {
            from,
            to,
            target,
            depth,
            always,
        },
        rest,
    ))
}

#[tactic(auto, unfolding(crate::specs::Reading::taken_at))]
pub fn taken_at(count: usize, bytes: &[u8]) -> Result<(&[u8], &[u8]), Bad>
    ensures { Gives (λ x. (x.0.now, x.1.now)) result (taken_at count bytes.now) }
{
    if bytes.len() < count {
        return Err(Bad::Short);
    }
    Ok(bytes.split_at(count))
}

fn string_at(bytes: &[u8]) -> Result<(&[u8], &[u8]), Bad>
    ensures { Gives (λ x. (x.0.now, x.1.now)) result (string_at bytes.now) }
{
    let (count, rest) = number_at(bytes)?;
    taken_at(count as usize, rest)
}

fn utf8(bytes: &[u8]) -> Option<&str>
    ensures { MatchOption result (is_utf8 bytes.now ≡ false) (λ text. (is_utf8 bytes.now ≡ true) × (text.now ≡ bytes.now)) }
{
    match std::str::from_utf8(bytes) {
        Ok(text) => Some(text),
        Err(_) => None,
    }
}

fn copied_text(alloc: Global, text: &str) -> Result<Text, Bad>
    ensures ok { IfOk result (λ t. t ≡ text.now) }
    ensures err { IfErr result (λ e. e ≡ Bad.Memory) }
{
    match Text::from_str(alloc, text) {
        Ok(copy) => Ok(copy),
        Err(_) => Err(Bad::Memory),
    }
}

#[tactic(auto, unfolding(crate::specs::Reading::text_at))]
pub fn text_at(alloc: Global, bytes: &[u8]) -> Result<(Text, &[u8]), Bad>
    ensures { Gives (λ x. (x.0, x.1.now)) result (text_at bytes.now) }
{
    let (text, rest) = string_at(bytes)?;
    match utf8(text) {
        Some(text) => {
            let text = copied_text(alloc, text)?;
            Ok((text, rest))
        }
        None => Err(Bad::Field(bytes.len())),
    }
}

#[tactic(auto, unfolding(crate::specs::Reading::name_at))]
pub fn name_at(texts: usize, bytes: &[u8]) -> Result<(TextNo, &[u8]), Bad>
    ensures { Gives (λ x. (x.0, x.1.now)) result (name_at texts bytes.now) }
{
    let (number, rest) = below_at(texts, bytes)?;
    Ok((TextNo(number), rest))
}

#[tactic(auto, unfolding(crate::specs::Reading::integer_at, crate::specs::Reading::taken_at))]
fn integer_at(bytes: &[u8]) -> Result<(i128, &[u8]), Bad>
    ensures { Gives (λ x. (x.0, x.1.now)) result (integer_at bytes.now) }
{
    match bytes.split_first_chunk::<16>() {
        Some((front, rest)) => Ok((i128::from_le_bytes(*front), rest)),
        None => Err(Bad::Short),
    }
}

#[tactic(auto, unfolding(crate::specs::Reading::const_at))]
pub fn const_at(texts: usize, bytes: &[u8]) -> Result<(Const, &[u8]), Bad>
    ensures { Gives (λ x. (x.0, x.1.now)) result (const_at texts bytes.now) }
{
    match bytes {
        [0, rest @ ..] => Ok((Const::None, rest)),
        [1, rest @ ..] => Ok((Const::False, rest)),
        [2, rest @ ..] => Ok((Const::True, rest)),
        [3, rest @ ..] => {
            let (number, rest) = integer_at(rest)?;
            Ok((Const::Int(number), rest))
        }
        [4, rest @ ..] => {
            let (text, rest) = name_at(texts, rest)?;
            Ok((Const::Text(text), rest))
        }
        [5, rest @ ..] => Ok((Const::Ellipsis, rest)),
        [] => Err(Bad::Short),
        _ => Err(Bad::Field(bytes.len())),
    }
}

#[tactic(auto, unfolding(crate::specs::Reading::kind_at))]
pub fn kind_at(bytes: &[u8]) -> Result<(BlockKind, &[u8]), Bad>
    ensures { Gives (λ x. (x.0, x.1.now)) result (kind_at bytes.now) }
{
    match bytes {
        [0, rest @ ..] => Ok((BlockKind::Module, rest)),
        [1, rest @ ..] => Ok((BlockKind::Function, rest)),
        [2, rest @ ..] => Ok((BlockKind::Generator, rest)),
        [3, rest @ ..] => Ok((BlockKind::Class, rest)),
        [4, rest @ ..] => Ok((BlockKind::GeneratorExpression, rest)),
        [] => Err(Bad::Short),
        _ => Err(Bad::Field(bytes.len())),
    }
}

#[tactic(auto, unfolding(crate::specs::Reading::rest_at))]
pub fn rest_at(bytes: &[u8]) -> Result<(Rest, &[u8]), Bad>
    ensures { Gives (λ x. (x.0, x.1.now)) result (rest_at bytes.now) }
{
    let (positional, named, rest) = match bytes {
        [0, rest @ ..] => (false, false, rest),
        [1, rest @ ..] => (true, false, rest),
        [2, rest @ ..] => (false, true, rest),
        [3, rest @ ..] => (true, true, rest),
        [] => return Err(Bad::Short),
        _ => return Err(Bad::Field(bytes.len())),
    };
    Ok((Rest { positional, named }, rest))
}

pub fn size_at(bytes: &[u8]) -> Result<(u32, &[u8]), Bad>
    ensures { Gives (λ x. (x.0, x.1.now)) result (kept (nat_lt 0) number_at bytes.now) }
{
    let (size, rest) = number_at(bytes)?;
    if 0 < size {
        Ok((size, rest))
    } else {
        Err(Bad::Field(bytes.len()))
    }
}
