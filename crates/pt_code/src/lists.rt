ghost use Rattle.std.specs.Prelude.{◌≡◌, ◌++◌, [], ◌∷◌, ℕ, List, OnOk, IfErr};
ghost use Rattle.pt_code.specs.Reading.{Read, Gives, items_at, list_at, with_front, below_at, start_at, mark_at, handler_at, text_at, name_at, const_at};

use crate::fields::{
    below_at, const_at, handler_at, mark_at, name_at, number_at, start_at, text_at,
};
use crate::parts::{Bad, Within};
use crate::{Const, Start};
use pt_base::{Seq, Text};
use pt_instr::TextNo;
use pt_ranges::{ActMark, Handler};
use std::alloc::Global;

/// A value that is read from a code file.
pub trait Readable: Drop {
    ghost use Rattle.pt_code.specs.declared.parts.Within.{Within};

    ghost reading: { Within → List ℕ → Read Self };

    fn read<'a>(alloc: Global, within: Within, bytes: &'a [u8]) -> Result<(Self, &'a [u8]), Bad>
    where
        Self: Sized,
        ensures { Gives (λ x. (x.0, x.1.now)) result (reading within bytes.now) };
}

pub fn list_of<'a, T: Readable>(
    alloc: Global,
    within: Within,
    bytes: &'a [u8],
) -> Result<(Seq<T>, &'a [u8]), Bad>
    ensures { Gives (λ x. (x.0, x.1.now)) result (list_at (T.reading within) bytes.now) }
{
    let (count, rest) = number_at(bytes)?;
    items_of(alloc, count, within, rest)
}

pub fn items_of<'a, T: Readable>(
    alloc: Global,
    count: u32,
    within: Within,
    bytes: &'a [u8],
) -> Result<(Seq<T>, &'a [u8]), Bad>
    ensures { Gives (λ x. (x.0, x.1.now)) result (items_at (T.reading within) count bytes.now) }
{
    items_behind(alloc, Seq::new(alloc), count, within, bytes)
}

/// So many items behind the first.
pub fn items_behind<'a, T: Readable>(
    alloc: Global,
    first: Seq<T>,
    count: u32,
    within: Within,
    bytes: &'a [u8],
) -> Result<(Seq<T>, &'a [u8]), Bad>
    ensures { Gives (λ x. (x.0, x.1.now)) result (with_front first (items_at (T.reading within) count bytes.now)) }
{
    let mut items = first;
    let mut rest = bytes;
    for counter in 0..count {
        let (item, behind) = T::read(alloc, within, rest)?;
        push(&mut items, item)?;
        rest = behind;
    }
    Ok((items, rest))
}

pub fn push<T: Drop>(items: &mut Seq<T>, item: T) -> Result<(), Bad>
    ensures ok { OnOk result (items.new ≡ items.old ++ item ∷ []) }
    ensures err { IfErr result (λ e. e ≡ Bad.Memory) }
{
    match items.push(item) {
        Ok(()) => Ok(()),
        Err(_) => Err(Bad::Memory),
    }
}

impl Readable for u32 {
    ghost reading = { λ within. below_at within.texts };

    fn read<'a>(_alloc: Global, within: Within, bytes: &'a [u8]) -> Result<(u32, &'a [u8]), Bad> {
        below_at(within.texts, bytes)
    }
}

impl Readable for Seq<u32> {
    ghost reading = { λ within. list_at (below_at within.texts) };

    fn read<'a>(
        alloc: Global,
        within: Within,
        bytes: &'a [u8],
    ) -> Result<(Seq<u32>, &'a [u8]), Bad> {
        list_of(alloc, within, bytes)
    }
}

impl Readable for TextNo {
    ghost reading = { λ within. name_at within.texts };

    fn read<'a>(
        _alloc: Global,
        within: Within,
        bytes: &'a [u8],
    ) -> Result<(TextNo, &'a [u8]), Bad> {
        name_at(within.texts, bytes)
    }
}

impl Readable for Text {
    ghost reading = { λ _. text_at };

    fn read<'a>(alloc: Global, _within: Within, bytes: &'a [u8]) -> Result<(Text, &'a [u8]), Bad> {
        text_at(alloc, bytes)
    }
}

impl Readable for Const {
    ghost reading = { λ within. const_at within.texts };

    fn read<'a>(_alloc: Global, within: Within, bytes: &'a [u8]) -> Result<(Const, &'a [u8]), Bad> {
        const_at(within.texts, bytes)
    }
}

impl Readable for ActMark {
    ghost reading = { λ _. mark_at };

    fn read<'a>(
        _alloc: Global,
        _within: Within,
        bytes: &'a [u8],
    ) -> Result<(ActMark, &'a [u8]), Bad> {
        mark_at(bytes)
    }
}

impl Readable for Handler {
    ghost reading = { λ _. handler_at };

    fn read<'a>(
        _alloc: Global,
        _within: Within,
        bytes: &'a [u8],
    ) -> Result<(Handler, &'a [u8]), Bad> {
        handler_at(bytes)
    }
}

impl Readable for Start {
    ghost reading = { λ _. start_at };

    fn read<'a>(
        _alloc: Global,
        _within: Within,
        bytes: &'a [u8],
    ) -> Result<(Start, &'a [u8]), Bad> {
        start_at(bytes)
    }
}
