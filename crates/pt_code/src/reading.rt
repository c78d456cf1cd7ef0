ghost use Rattle.pt_code.specs.Reading.{Gives, fields_at, behind_byte, behind_version, behind_magic, code_of};

use crate::blocks::{blocks_at, inside};
use crate::fields::byte_at;
use crate::lists::list_of;
use crate::parts::Bad;
use crate::{Code, Const};
use pt_base::{Seq, Text};
use std::alloc::Global;

#[tactic(auto, unfolding(crate::specs::Reading::fields_at))]
fn fields_at<'a>(alloc: Global, bytes: &'a [u8]) -> Result<(Code, &'a [u8]), Bad>
    ensures { Gives (λ x. (x.0, x.1.now)) result (fields_at bytes.now) }
{
    let (texts, rest) = list_of::<Text>(alloc, inside(0, 0, 0, 0, false), bytes)?;
    let named = texts.len();
    let within = inside(named, 0, 0, 0, false);
    let (constants, rest) = list_of::<Const>(alloc, within, rest)?;
    let (lists, rest) = list_of::<Seq<u32>>(alloc, within, rest)?;
    let (blocks, rest) = blocks_at(alloc, named, constants.len(), lists.len(), rest)?;
    Ok((
        Code {
            texts,
            constants,
            lists,
            blocks,
        },
        rest,
    ))
}

#[tactic(auto, unfolding(crate::specs::Reading::behind_byte))]
fn behind_byte(expected: u8, bytes: &[u8]) -> Result<&[u8], Bad>
    ensures { Gives (λ rest. rest.now) result (behind_byte expected bytes.now) }
{
    let (byte, rest) = byte_at(bytes)?;
    if byte == expected {
        Ok(rest)
    } else {
        Err(Bad::Magic)
    }
}

#[tactic(auto, unfolding(crate::specs::Reading::behind_version))]
fn behind_version(bytes: &[u8]) -> Result<&[u8], Bad>
    ensures { Gives (λ rest. rest.now) result (behind_version bytes.now) }
{
    let (byte, rest) = byte_at(bytes)?;
    if byte == 1 {
        Ok(rest)
    } else {
        Err(Bad::Version(byte))
    }
}

#[tactic(auto, unfolding(crate::specs::Reading::behind_magic))]
fn behind_magic(bytes: &[u8]) -> Result<&[u8], Bad>
    ensures { Gives (λ rest. rest.now) result (behind_magic bytes.now) }
{
    let rest = behind_byte(b'P', bytes)?;
    let rest = behind_byte(b'T', rest)?;
    let rest = behind_byte(b'C', rest)?;
    let rest = behind_byte(b'F', rest)?;
    behind_version(rest)
}

#[tactic(auto, unfolding(crate::specs::Reading::code_of))]
pub fn code_of(alloc: Global, bytes: &[u8]) -> Result<Code, Bad>
    ensures { Gives (λ c. c) result (code_of bytes.now) }
{
    let rest = behind_magic(bytes)?;
    let (code, rest) = fields_at(alloc, rest)?;
    if rest.is_empty() {
        Ok(code)
    } else {
        Err(Bad::Trailing(rest.len()))
    }
}
