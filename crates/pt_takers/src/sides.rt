//! On which side of a row a place lies that the row doesn't cover, told by one test: the key of the
//! row is less than the bound of the place.
ghost use Rattle.std.specs.Prelude.{◌≡◌};
ghost use Rattle.pt_takers.specs.Sides.{bound, is_below, key};

use pt_base::Pc;
use pt_ranges::Handler;

/// The end of a row behind which a place lies, or the beginning before which it lies.
#[derive(Clone, Copy, Debug)]
pub enum Side {
    Behind,
    Before,
}

/// One more than the greatest place.
const PLACES: u64 = 4_294_967_296;

fn key(side: Side, row: &Handler) -> u64
    ensures { result ≡ key side row.now }
{
    match side {
        Side::Behind => row.to.0 as u64,
        Side::Before => PLACES.saturating_sub(row.from.0 as u64),
    }
}

pub fn bound(side: Side, target: Pc) -> u64
    ensures { result ≡ bound side target.0 }
{
    match side {
        Side::Behind => target.0 as u64 + 1,
        Side::Before => PLACES.saturating_sub(target.0 as u64),
    }
}

/// Whether a place of this bound lies on this side of a row.
pub fn is_below(side: Side, bound: u64, row: &Handler) -> bool
    ensures { result ≡ is_below side bound row.now }
{
    key(side, row) < bound
}

/// Whether the one row leaves more places on this side than the other.
pub fn is_less(side: Side, row: &Handler, other: &Handler) -> bool
    ensures { result ≡ is_below side (key side other.now) row.now }
{
    key(side, row) < key(side, other)
}
