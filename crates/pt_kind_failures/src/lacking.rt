//! Whether an instruction finds another kind than it takes.
ghost use Rattle.std.specs.Prelude.{◌≡◌, Option, option_map, IfOk, IfSome, MatchBool};
ghost use Rattle.sem_fits.specs.fits.Block.{links_of};
ghost use Rattle.pt_kinds.specs.Forest.{IsForest, IsInside};
ghost use Rattle.pt_kind_flow.specs.Search.{Grows};
ghost use Rattle.pt_kind_failures.specs.Lacking.{AnyLacks, AreInside, lacks_in};

use crate::finding::finds;
use pt_base::Memory;
use pt_block_kinds::place_at;
use pt_code::Code;
use pt_instr::effect;
use pt_kinds::Forest;
use pt_places::{Place, Places};
use pt_verify_depths::captured;

/// Whether the instruction of a place with such a list finds another kind.
fn lacks_in(
    code: &Code,
    forest: &mut Forest,
    list: Option<usize>,
    place: Option<&Place>,
) -> Result<bool, Memory>
    requires forest { IsForest forest.old }
    requires inside { IfSome list (IsInside forest.old) }
    ensures grows { IfOk result (λ _. Grows forest.old forest.new) }
    ensures exact { IfOk result (λ lacks. lacks ≡ lacks_in forest.old (links_of code.now) list
        (option_map (λ p. p.now) place.entry)) }
{
    let (Some(list), Some(place)) = (list, place) else {
        return Ok(false);
    };
    let effect = effect(&place.instr, captured(code, &place.instr)?);
    let found = finds(forest, list, &effect)?;
    Ok(!found)
}

/// Whether one up to a limit does, of places with these lists.
pub fn any_lacks(
    code: &Code,
    places: &Places,
    forest: &mut Forest,
    lists: &[Option<usize>],
    limit: usize,
) -> Result<bool, Memory>
    requires forest { IsForest forest.old }
    requires inside { AreInside forest.old lists.now }
    ensures { IfOk result (λ any. MatchBool any
        (AnyLacks forest.old (links_of code.now) lists.now places.now limit)
        (AnyLacks forest.old (links_of code.now) lists.now places.now limit → ⊥)) }
{
    for at in 0..lists.len() {
        if at > limit {
            return Ok(false);
        }
        let place = place_at(places, at)?;
        if lacks_in(code, forest, lists[at], place)? {
            return Ok(true);
        }
    }
    Ok(false)
}
