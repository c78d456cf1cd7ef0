//! What refuses a block that agrees.
ghost use Rattle.std.specs.Prelude.{◌≡◌, option_map};
ghost use Rattle.pt_refusals.specs.Verdicts.{misfit_of, refusal_behind};

use crate::failures::Refusal;
use pt_block_limits::Cycles;

/// What refuses a block whose tables hold and which agrees: the least Leave whose target gets no
/// kinds, too many slots at a place, or the least place of a silent loop, in this order. It is
/// none where the block fits.
pub fn refusal_behind(lost: Option<usize>, deep: bool, loops: &Cycles) -> Option<Refusal>
    ensures { option_map misfit_of result ≡ refusal_behind lost deep loops.now }
{
    if let Some(leave) = lost {
        return Some(Refusal::Target(leave));
    }
    if deep {
        return Some(Refusal::Depth);
    }
    match loops {
        Cycles::Ranks(_) => None,
        Cycles::Least(place) => Some(Refusal::SilentLoop(*place)),
    }
}
