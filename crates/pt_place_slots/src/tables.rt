//! The tables of a block.
ghost use Rattle.std.specs.Prelude.{◌≡◌, ◌≤◌, ◌<◌, ℕ, length, Option, Some, option_map, IfOk, IfSome};
ghost use Rattle.pt_instr.specs.Effects.{Kinds};
ghost use Rattle.pt_code.specs.View.{Ins, IsView};
ghost use Rattle.pt_places.specs.PlaceTable.{HasPlaces, entry};
ghost use Rattle.sem_fits.specs.fits.Block.{Block, block_of};
ghost use Rattle.sem_fits.specs.fits.Fits.{Fits};
ghost use Rattle.sem_fits.specs.fits.Jumps.{Jumps};
ghost use Rattle.sem_fits.specs.fits.Places.{Gets};
ghost use Rattle.pt_jump.specs.Targets.{answer_of};
ghost use Rattle.pt_verify_depths.specs.PlaceTable.{AreSizes};
ghost use Rattle.pt_kind_flow.specs.Search.{IsFlow};
ghost use Rattle.pt_block_kinds.specs.Drawing.{Draws};
ghost use Rattle.pt_block_kinds.specs.Told.{TellsListAt};
ghost use Rattle.pt_joins.specs.Joins.{IsForest};
ghost use Rattle.pt_place_slots.specs.Kinds.{IsKinds, kinds_of};
ghost use Rattle.pt_place_slots.specs.Tables.{HasLists, IsNumber, IsSound, TellsSlotsOf, TellsSlotAt};

use crate::kinds::KindsAt;
use crate::lists::{KindList, lists_at};
use pt_base::{Line, Memory, Pc};
use pt_block_kinds::{BlockKinds, kinds_up_to};
use pt_code::{Code, CodeBlock, Start};
use pt_common_slots::{Joins, common_slots, in_common};
use pt_instr::Kind;
use pt_jump::{JumpErr, Land, PlaceSlots};
use pt_kind_flow::Flow;
use pt_kinds::Forest;
use pt_places::Places;
use std::alloc::Global;

/// What is asked of the slots at the places of a block that fits.
#[derive(Debug, Drop)]
pub struct BlockSlots {
    places: Vec<Option<KindList>>,
    forest: Forest,
    joins: Joins,
}

/// Puts the lists of places, of which there are so many, beside what is in common.
fn with_lists(
    alloc: Global,
    kinds: BlockKinds,
    places: &Places,
    count: usize,
    joins: Joins,
) -> Result<BlockSlots, Memory>
    requires flow { IsFlow kinds.flow }
    requires joins { IsForest joins.nodes.items }
    ensures sound { IfOk result (λ slots. IsSound slots) }
    ensures lists { IfOk result (λ slots. HasLists kinds places.now count slots) }
    ensures joins { IfOk result (λ slots. slots.joins ≡ joins) }
{
    if joins.nodes.len() < count || joins.nodes.len() > u32::MAX as usize {
        return Err(Memory);
    }
    let lists = lists_at(alloc, &kinds, places, count)?;
    let BlockKinds { flow, rows_from: _ } = kinds;
    let Flow { forest, .. } = flow;
    Ok(BlockSlots {
        places: lists,
        forest,
        joins,
    })
}

/// Makes the tables of a block that fits, by the sizes of its places. For n places and r handler
/// rows it takes time and memory O((n + r) log n).
///
/// # Errors
///
/// `Memory` for want of it, and where the block has 2^32 bytes, handler rows or free names, as none
/// of a code file has, where it has more bytes than sizes are given, or where a list passes 2^32
/// slots, as none of a block that fits does.
pub fn block_slots(
    alloc: Global,
    code: &Code,
    block: &CodeBlock,
    places: &Places,
    sizes: &[Option<u64>],
) -> Result<BlockSlots, Memory>
    ensures sound { IfOk result (λ slots. IsSound slots) }
    ensures exact { IfOk result (λ slots. (view : ℕ → Option Ins) → IsView block.now view
        → HasPlaces view places.now → AreSizes (block_of code.now block.now view) sizes.now
        → Fits (block_of code.now block.now view)
        → TellsSlotsOf (block_of code.now block.now view) slots) }
{
    let end = block.instructions.len();
    let Ok(limit) = u32::try_from(end) else {
        return Err(Memory);
    };
    if sizes.len() < end {
        return Err(Memory);
    }
    let joins = common_slots(alloc, block, places, sizes, Pc(limit))?;
    let kinds = kinds_up_to(alloc, code, block, places, sizes, end)?;
    let slots = with_lists(alloc, kinds, places, sizes.len(), joins)?;
    Ok(slots)
}

impl BlockSlots {
    fn at(&self, pc: Pc) -> Option<KindList>
        ensures { result ≡ entry self.now.places.items pc.0 }
    {
        match self.places.get(pc.0 as usize) {
            None => None,
            Some(listed) => *listed,
        }
    }

    /// The kinds of the slots at a place; None where no way comes to it. It takes no memory.
    pub fn kinds_at(&self, pc: Pc) -> Option<KindsAt<'_>>
        requires { IsSound self.now }
        ensures kinds { (b : Block) → TellsSlotsOf b self.now
            → TellsListAt b b.size pc.0 (option_map kinds_of result) }
        ensures sound { IfSome result IsKinds }
    {
        match self.at(pc) {
            None => None,
            Some(listed) => Some(KindsAt::new(&self.forest, listed.list)),
        }
    }

    /// The number of a slot at a place.
    fn number(&self, pc: Pc, slot: u32) -> u32
        requires sound { IsSound self.now }
        requires inside { pc.0 < length self.now.places.items }
        ensures { IsNumber self.now pc.0 slot result }
    {
        let number = self.joins.root_at(pc.0 as usize, slot as u64);
        number as u32
    }

    /// A slot of a list, and its number.
    fn slot_in(&self, listed: KindList, pc: Pc, slot: u32) -> Option<(Kind, u32)>
        requires sound { IsSound self.now }
        requires here { entry self.now.places.items pc.0 ≡ Some listed }
        ensures { (b : Block) → TellsSlotsOf b self.now
            → TellsSlotAt b self.now pc.0 slot result }
    {
        match self.forest.slot(listed.list, slot as u64) {
            None => None,
            Some(kind) => Some((kind, self.number(pc, slot))),
        }
    }

    /// The kind of a slot at a place, counted from the lowest, and a number of the slot, which is
    /// the same at two places just where these have the slot in common. None where no way comes to
    /// the place, or it has no such slot. It takes O(log n) steps and no memory.
    pub fn slot_at(&self, pc: Pc, slot: u32) -> Option<(Kind, u32)>
        requires { IsSound self.now }
        ensures { (b : Block) → TellsSlotsOf b self.now
            → TellsSlotAt b self.now pc.0 slot result }
    {
        match self.at(pc) {
            None => None,
            Some(listed) => self.slot_in(listed, pc, slot),
        }
    }

    /// Where a jump from a place to a line leads, or why it isn't permitted. It takes no memory.
    ///
    /// # Errors
    ///
    /// Those of `pt_jump::target`.
    pub fn target(&self, starts: &[Start], from: Pc, line: Line) -> Result<Land, JumpErr>
        requires { IsSound self.now }
        ensures { (b : Block) → TellsSlotsOf b self.now → b.starts ≡ starts.now → (ks : Kinds)
            → Gets b b.size from.0 ks → Jumps b from.0 ks line.0 (answer_of result) }
    {
        pt_jump::target(self, starts, from, line)
    }
}

impl PlaceSlots for BlockSlots {
    ghost use Rattle.pt_common_slots.specs.Common.{TellsCommon};
    ghost use Rattle.pt_place_slots.specs.Tables.{IsSound, told_of};

    ghost told = { λ s. told_of s };

    ghost sound = { λ s. IsSound s };

    ghost tells = { λ s b. TellsCommon b b.size s.joins.nodes.items };

    fn count(&self, pc: Pc) -> Option<u32> {
        match self.at(pc) {
            None => None,
            Some(listed) => Some(listed.count),
        }
    }

    fn held(&self, pc: Pc) -> u32 {
        match self.at(pc) {
            None => 0,
            Some(listed) => listed.held,
        }
    }

    fn is_shared(&self, slot: u32, one: Pc, other: Pc) -> bool {
        in_common(&self.joins, slot as u64, one, other)
    }
}
