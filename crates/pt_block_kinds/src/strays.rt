//! Whether an instruction goes on to where none stands.
ghost use Rattle.std.specs.Prelude.{◌≡◌, ◌<◌, ◌≤◌, ℕ, length, is_some, Option, option_map, IfOk, MatchBool};
ghost use Rattle.std.specs.Bool.{Decides};
ghost use Rattle.pt_code.specs.declared.CodeBlock.{CodeBlock};
ghost use Rattle.pt_code.specs.View.{Ins};
ghost use Rattle.pt_places.specs.PlaceTable.{HasPlaces};
ghost use Rattle.sem_fits.specs.fits.Block.{block_of, links_of};
ghost use Rattle.sem_fits.specs.fits.Agreement.{Strays};
ghost use Rattle.pt_kind_flow.specs.Search.{IsFlow};
ghost use Rattle.pt_block_kinds.specs.Graph.{HasSizes, IsSeen};
ghost use Rattle.pt_block_kinds.specs.Drawing.{Draws};
ghost use Rattle.pt_block_kinds.specs.Astray.{AnyAstray, RowsLandOnPlaces, aside_misses, astray_of, goes_astray, is_astray, leave_misses, misses};

use crate::graph::{BlockKinds, place_at};
use crate::leads::is_enough;
use pt_base::{Memory, Pc};
use pt_code::Code;
use pt_instr::{Instr, effect};
use pt_places::{Place, Places};
use pt_verify_depths::{captured, target_of};

fn misses(places: &Places, at: Pc) -> bool
    ensures { result ≡ misses places.now at.0 }
{
    places.at(at).is_none()
}

fn leave_misses(places: &Places, instr: &Instr) -> bool
    ensures { result ≡ leave_misses places.now instr.now }
{
    match *instr {
        Instr::Leave(to) => misses(places, to),
        _ => false,
    }
}

fn aside_misses(places: &Places, target: Option<Pc>, gives: bool) -> bool
    ensures { result ≡ aside_misses places.now (option_map (λ t. t.0) target) gives }
{
    match target {
        None => false,
        Some(to) => gives && misses(places, to),
    }
}

fn goes_astray(code: &Code, places: &Places, place: &Place, size: u64) -> Result<bool, Memory>
    ensures { IfOk result (λ t. t ≡ goes_astray (links_of code.now) places.now place.now size) }
{
    let effect = effect(&place.instr, captured(code, &place.instr)?);
    let leave = leave_misses(places, &place.instr);
    let onward = effect.gives.is_some() && misses(places, place.next);
    let aside = aside_misses(places, target_of(&place.instr), effect.aside.is_some());
    Ok(leave || is_enough(&effect, size) && (onward || aside))
}

/// Whether an instruction to whose place lists come goes astray.
fn astray_of(
    code: &Code,
    places: &Places,
    list: Option<usize>,
    place: Option<&Place>,
    size: Option<u64>,
) -> Result<bool, Memory>
    ensures { IfOk result (λ t. t ≡ astray_of (links_of code.now) places.now list
        (option_map (λ p. p.now) place.entry) size) }
{
    let (Some(_), Some(place), Some(size)) = (list, place, size) else {
        return Ok(false);
    };
    goes_astray(code, places, place, size)
}

impl BlockKinds {
    /// Whether the instruction of a place goes astray.
    fn is_astray(
        &self,
        code: &Code,
        places: &Places,
        sizes: &[Option<u64>],
        at: usize,
    ) -> Result<bool, Memory>
        requires { at < length sizes.now }
        ensures { IfOk result (λ t. t ≡ is_astray self.now.flow (links_of code.now) places.now
            sizes.now at) }
    {
        let place = place_at(places, at)?;
        astray_of(code, places, self.flow.longest(at), place, sizes[at])
    }

    /// Whether one up to a limit does.
    fn any_astray(
        &self,
        code: &Code,
        places: &Places,
        sizes: &[Option<u64>],
        limit: usize,
    ) -> Result<bool, Memory>
        ensures { IfOk result (λ t. MatchBool t
            (AnyAstray self.now.flow (links_of code.now) places.now sizes.now limit)
            (AnyAstray self.now.flow (links_of code.now) places.now sizes.now limit → ⊥)) }
    {
        for at in 0..sizes.len() {
            if at > limit {
                return Ok(false);
            }
            if self.is_astray(code, places, sizes, at)? {
                return Ok(true);
            }
        }
        Ok(false)
    }

    /// Whether an instruction at the limit or below goes on to where none stands, where the targets
    /// of handler rows are places.
    ///
    /// # Errors
    ///
    /// `Memory` where a block has 2^32 bytes or free names, as none of a code file has.
    pub fn strays(
        &self,
        code: &Code,
        places: &Places,
        sizes: &[Option<u64>],
        limit: usize,
    ) -> Result<bool, Memory>
        requires { IsFlow self.now.flow }
        ensures { IfOk result (λ t. (block : CodeBlock) (view : ℕ → Option Ins)
            → HasPlaces view places.now
            → Draws (block_of code.now block view) limit sizes.now self.now
            → IsSeen (block_of code.now block view) (length sizes.now)
            → HasSizes (block_of code.now block view) limit sizes.now
            → RowsLandOnPlaces (block_of code.now block view)
            → Decides t (Strays (block_of code.now block view) limit)) }
    {
        self.any_astray(code, places, sizes, limit)
    }
}
