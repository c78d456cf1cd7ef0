//! Which slots lie at the places of blocks.
ghost use Rattle.pt_place_slots.specs.Kinds.{IsKinds};
ghost use Rattle.pt_code_slots.specs.Blocks.{AreSound};

use crate::no_row::NoRow;
use pt_base::{BlockId, Pc};
use pt_code::Code;
use pt_code_slots::{CodeSlots, code_slots};
use pt_instr::Kind;
use pt_place_slots::KindsAt;
use std::alloc::Global;
use std::fmt::Write;

fn letter(kind: Kind) -> &'static str {
    match kind {
        Kind::Value => "V",
        Kind::Cell => "C",
        Kind::Iter => "I",
        Kind::Exc => "X",
        Kind::Pending => "P",
        Kind::With => "W",
    }
}

/// The first place up to one whose slot has this number.
fn first_with(slots: &CodeSlots, block: BlockId, at: u32, slot: u32, number: u32) -> u32
    requires { AreSound slots.now }
{
    for place in 0..at {
        if let Some((_, other)) = slots.slot_at(block, Pc(place), slot) {
            if other == number {
                return place;
            }
        }
    }
    at
}

/// Whether the topmost slots of one kind are those of a list.
fn has_top(kinds: &KindsAt) -> bool
    requires { IsKinds kinds.now }
{
    let length = kinds.len();
    match kinds.top() {
        None => length == 0,
        Some(top) => kinds.get(length.saturating_sub(1)) == Some(top.kind)
            && top.below.len().saturating_add(top.count) == length,
    }
}

/// Writes the kind of a slot, and the first place with which it is in common.
fn slot_in(
    line: &mut String,
    slots: &CodeSlots,
    kinds: &KindsAt,
    block: BlockId,
    at: u32,
    slot: u64,
) -> Result<(), NoRow>
    requires slots { AreSound slots.now }
    requires kinds { IsKinds kinds.now }
{
    let narrow = u32::try_from(slot).map_err(|_| NoRow)?;
    let (Some(kind), Some((same, number))) = (kinds.get(slot), slots.slot_at(block, Pc(at), narrow))
    else {
        return Err(NoRow);
    };
    if kind != same {
        return Err(NoRow);
    }
    line.push_str(letter(kind))?;
    write!(line, "{},", first_with(slots, block, at, narrow, number))?;
    Ok(())
}

/// Writes the slots of a place, from the lowest.
fn place_in(line: &mut String, slots: &CodeSlots, block: BlockId, at: u32) -> Result<(), NoRow>
    requires { AreSound slots.now }
{
    let Some(kinds) = slots.kinds_at(block, Pc(at)) else {
        return Ok(());
    };
    if !has_top(&kinds) {
        return Err(NoRow);
    }
    write!(line, "{at}:")?;
    for slot in 0..kinds.len() {
        slot_in(line, slots, &kinds, block, at, slot)?;
    }
    line.push_str(" ")?;
    Ok(())
}

/// Writes the slots of each place of a block, up to its end.
fn block_in(line: &mut String, slots: &CodeSlots, block: BlockId, end: usize) -> Result<(), NoRow>
    requires { AreSound slots.now }
{
    let end = u32::try_from(end).map_err(|_| NoRow)?;
    for at in 0..end {
        place_in(line, slots, block, at)?;
    }
    line.push_str(";")?;
    Ok(())
}

/// Writes the slots of each place of code that fits.
pub fn slots_in(line: &mut String, alloc: Global, code: &Code) -> Result<(), NoRow> {
    let slots = code_slots(alloc, code)?;
    let blocks = code.blocks.as_slice();
    for number in 0..blocks.len() {
        let id = BlockId(u32::try_from(number).map_err(|_| NoRow)?);
        block_in(line, &slots, id, blocks[number].instructions.len())?;
    }
    Ok(())
}
