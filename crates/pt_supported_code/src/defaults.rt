//! Whether functions are made with as many defaults as are listed.

ghost use Rattle.std.specs.Prelude.{◌≡◌, ℕ, [], Option, Some, IfOk, length, slice_index_or};
ghost use Rattle.std.specs.Prelude.{Decides};
ghost use Rattle.pt_code.specs.View.{Ins, IsView};
ghost use Rattle.pt_supported_code.specs.Built.{TakesAsListed};
ghost use Rattle.pt_supported_code.specs.Numbers.{AllTake};

use pt_base::{Memory, Pc, Seq};
use pt_code::CodeBlock;
use pt_instr::Instr;
use pt_places::Places;
use std::alloc::Global;

/// How many texts a list has, none where there is no list.
fn count_in(lists: &[Seq<u32>], number: usize) -> usize
    ensures { result ≡ length (slice_index_or lists.now number []) }
{
    match lists.get(number) {
        Some(list) => list.len(),
        None => 0,
    }
}

fn takes_as_listed(lists: &[Seq<u32>], instr: Instr) -> bool
    ensures { Decides result (TakesAsListed lists.now instr) }
{
    match instr {
        Instr::MakeFunction(_, count, list) => count as usize == count_in(lists, list.0 as usize),
        _ => true,
    }
}

fn all_take_up_to(lists: &[Seq<u32>], places: &Places, size: u32) -> bool
    ensures { Decides result (AllTake lists.now size places.now) }
{
    for pc in 0..=size {
        if let Some(place) = places.at(Pc(pc)) {
            if !takes_as_listed(lists, place.instr) {
                return false;
            }
        }
    }
    true
}

/// Whether each instruction of a block that makes a function takes as many defaults as its list
/// names, in time linear in its bytes and its marks.
pub fn all_take(alloc: Global, lists: &[Seq<u32>], block: &CodeBlock) -> Result<bool, Memory>
    ensures { IfOk result (λ all. (view : ℕ → Option Ins) → IsView block.now view
        → Decides all ((pc : ℕ) (i : Ins) → view pc ≡ Some i → TakesAsListed lists.now i.instr)) }
{
    let Ok(size) = u32::try_from(block.instructions.len()) else {
        return Err(Memory);
    };
    let places = Places::make(alloc, block)?;
    Ok(all_take_up_to(lists, &places, size))
}
