//! The first place that refuses a block.
ghost use Rattle.std.specs.Prelude.{◌≤◌, option_map, IfOk};
ghost use Rattle.sem_fits.specs.fits.Block.{Block};
ghost use Rattle.sem_fits.specs.fits.Fits.{Refused, RefusedAt, TablesHold};
ghost use Rattle.pt_refusals.specs.Laws.{TellsFirst, TellsPlace};
ghost use Rattle.pt_refusals.specs.Verdicts.{misfit_of};

use crate::failures::Refusal;
use pt_base::Memory;

/// Tells of a block what refuses it at a place.
pub trait Probe {
    ghost use Rattle.std.specs.Prelude.{ℕ};
    ghost use Rattle.sem_fits.specs.fits.Block.{Block};

    /// Whether it tells of a block.
    ghost tells: { Self → Block → Type 0 };

    /// The last place of which it can be asked, as where sizes disagree.
    ghost last: { Self → ℕ };

    /// The refusal at a place, or that the block agrees up to there.
    ///
    /// # Errors
    ///
    /// `Memory` for want of it.
    fn refusal_at(&self, place: usize) -> Result<Option<Refusal>, Memory>
        requires { place ≤ last self.now }
        ensures { IfOk result (λ refusal. (b : Block) → tells self.now b
            → TellsPlace b place (option_map misfit_of refusal)) };
}

/// What refuses a block whose tables hold, at the first place up to which it doesn't agree, of a place
/// that refuses it. It asks of at most as many places as the last has binary digits.
///
/// # Errors
///
/// `Memory` for want of it.
pub fn refusal_up_to<P: Probe>(probe: &P, last: usize, refusal: Refusal) -> Result<Refusal, Memory>
    requires { last ≤ P.last probe.now }
    ensures { IfOk result (λ first. (b : Block) → P.tells probe.now b
        → RefusedAt b last (misfit_of refusal) → TablesHold b → Refused b (misfit_of first)) }
{
    let mut found = refusal;
    let mut low = 0;
    let mut high = last;
    while low < high {
        let middle = low + (high - low) / 2;
        match probe.refusal_at(middle)? {
            None => low = middle + 1,
            Some(refusal) => {
                high = middle;
                found = refusal;
            }
        }
    }
    Ok(found)
}

/// The same, or that the block agrees up to the last place. It asks of this one too.
///
/// # Errors
///
/// `Memory` for want of it.
pub fn first_refusal<P: Probe>(probe: &P, last: usize) -> Result<Option<Refusal>, Memory>
    requires { last ≤ P.last probe.now }
    ensures { IfOk result (λ refusal. (b : Block) → P.tells probe.now b
        → TellsFirst b last (option_map misfit_of refusal)) }
{
    match probe.refusal_at(last)? {
        None => Ok(None),
        Some(refusal) => Ok(Some(refusal_up_to(probe, last, refusal)?)),
    }
}
