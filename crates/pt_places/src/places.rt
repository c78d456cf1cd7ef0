//! The places of a block as a table.
ghost use Rattle.std.specs.Prelude.{◌≡◌, ℕ, length, Option, IfOk};
ghost use Rattle.pt_code.specs.View.{Ins, IsView};
ghost use Rattle.pt_places.specs.PlaceTable.{HasMarks, HasPlaces, place_of};

use crate::marks::{mark_in, marks_by_place};
use pt_base::{Memory, Pc};
use pt_code::CodeBlock;
use pt_instr::{Instr, decode};
use pt_ranges::ActMark;
use std::alloc::Global;
use std::marker::Model;

/// What stands at a place of code.
#[derive(Clone, Copy, Debug, PartialEq, Eq)]
pub struct Place {
    pub instr: Instr,
    /// The act that begins there, if one does.
    pub mark: Option<ActMark>,
    /// The place behind it.
    pub next: Pc,
}

/// What stands at each place of a block.
#[derive(Debug, Drop)]
pub struct Places {
    table: Vec<Option<Place>>,
}

impl Model for Places {
    ghost use Rattle.std.specs.Prelude.{List, Option};
    ghost use Rattle.pt_places.specs.declared.places.Place.{Place};

    ghost Value = { List (Option Place) };

    ghost view = { λ p. p.table.items };
}

impl Places {
    ghost use Rattle.std.specs.Prelude.{◌≡◌, ℕ, Option, IfOk};
    ghost use Rattle.std.specs.Option.{option_map};
    ghost use Rattle.pt_code.specs.View.{Ins, IsView};
    ghost use Rattle.pt_places.specs.PlaceTable.{HasPlaces, entry};

    /// Reads what stands at the places of a block, in time linear in its bytes and its marks. Of
    /// bytes that spell no instructions nothing is told.
    ///
    /// # Errors
    ///
    /// `Memory` for want of it, and where the block has 2^32 bytes or more, as none of a code file
    /// has.
    pub fn make(alloc: Global, block: &CodeBlock) -> Result<Places, Memory>
        ensures { IfOk result (λ places. (view : ℕ → Option Ins) → IsView block.now view
            → HasPlaces view places) }
    {
        let marks = marks_by_place(alloc, block.marks.as_slice(), block.instructions.len())?;
        let table = table_of(alloc, block, &marks)?;
        Ok(Places { table })
    }

    /// What stands at a place, where an instruction starts there. It takes constant time.
    pub fn at(&self, pc: Pc) -> Option<&Place>
        ensures { option_map (λ p. p.now) result ≡ entry self.now pc.0 }
    {
        match self.table.get(pc.0 as usize) {
            Some(Some(place)) => Some(place),
            _ => None,
        }
    }
}

fn place_of(instr: Instr, mark: Option<ActMark>, next: usize) -> Result<Place, Memory>
    ensures { IfOk result (λ p. p ≡ place_of instr mark next) }
{
    match u32::try_from(next) {
        Ok(next) => Ok(Place {
            instr,
            mark,
            next: Pc(next),
        }),
        Err(_) => Err(Memory),
    }
}

/// The table of a block's places, given the marks by place.
fn table_of(
    alloc: Global,
    block: &CodeBlock,
    marks: &[Option<ActMark>],
) -> Result<Vec<Option<Place>>, Memory>
    requires { HasMarks block.now.marks (length block.now.instructions) marks.now }
    ensures { IfOk result (λ table. (view : ℕ → Option Ins) → IsView block.now view
        → HasPlaces view table.items) }
{
    let bytes = block.instructions.as_slice();
    let mut table = vec![in alloc; None; bytes.len()]?;
    let mut at = 0;
    while at < bytes.len() {
        let Some((instr, next)) = decode(bytes, at) else {
            return Ok(table);
        };
        table[at] = Some(place_of(instr, mark_in(marks, at), next)?);
        at = next;
    }
    Ok(table)
}
