//! Where names may stand, by the numbers of their texts.
ghost use Rattle.std.specs.Prelude.{◌≡◌, Some, slice_get, slice_set};

use pt_base::{Memory, Seq};

/// The hint for a number, which is 0 where there is none.
pub fn hint_at(hints: &Seq<u32>, number: usize) -> usize
    ensures { (hint : _) → slice_get hints.now number ≡ Some hint → result ≡ hint }
{
    match hints.get(number) {
        Some(hint) => *hint as usize,
        None => 0,
    }
}

/// Makes hints up to that for a number, where they aren't there.
pub fn make_hint(hints: &mut Seq<u32>, number: usize) -> Result<(), Memory> {
    for _hint in hints.len()..=number {
        hints.push(0)?;
    }
    Ok(())
}

/// Gives a number a place as its hint, where a hint of it is there.
pub fn give_hint(hints: &mut Seq<u32>, number: usize, place: Option<usize>) {
    if let Some(place) = place {
        if number < hints.len() && place <= u32::MAX as usize {
            hints.set(number, place as u32);
        }
    }
}
