//! Instructions from a limit on are cut off: what comes to them goes no further.
ghost use Rattle.std.specs.Prelude.{◌≡◌, ◌≤◌, length, map, IfOk};
ghost use Rattle.pt_sizes.specs.Search.{body_of};
ghost use Rattle.pt_partial_sizes.specs.Cut.{AreCut, TellsBelow, cut_row, stop};

use pt_base::{Memory, Pc};
use pt_ranges::Handler;
use pt_sizes::{Place, Sizes, sizes_of};
use std::alloc::Global;

/// An instruction that takes nothing and from which nothing goes on.
fn stop() -> Place
    ensures { result ≡ stop }
{
    Place {
        takes: 0,
        needs: 0,
        onward: None,
        next: 0,
        aside: None,
        target: 0,
        again: false,
    }
}

fn cut_places(places: &mut Vec<Option<Place>>, limit: usize)
    ensures { AreCut limit places.old.items places.new.items }
{
    for pc in limit..places.len() {
        if places[pc].is_some() {
            places[pc] = Some(stop());
        }
    }
}

/// A row as far as it covers places below a limit.
fn cut_row(limit: u32, row: &Handler) -> Handler
    ensures { result ≡ cut_row limit row.now }
{
    Handler {
        to: Pc(row.to.0.min(limit)),
        ..*row
    }
}

fn cut_rows(alloc: Global, limit: u32, rows: &[Handler]) -> Result<Vec<Handler>, Memory>
    ensures { IfOk result (λ all. all.items ≡ map (cut_row limit) rows.now) }
{
    let mut all = Vec::new(alloc);
    for row in rows {
        all.push(cut_row(limit, row))?;
    }
    Ok(all)
}

/// The sizes that places get through the instructions below a limit, where the first gets so many;
/// or that these disagree, or a row is to leave too many slots or an instruction has too few there.
/// It takes as much time and memory as all sizes.
///
/// # Errors
///
/// `Memory` for want of it, and where a size passes 2^64, to which no block of a code file comes.
pub fn sizes_below(
    alloc: Global,
    places: Vec<Option<Place>>,
    rows: &[Handler],
    first: u64,
    limit: u32,
) -> Result<Sizes, Memory>
    ensures { IfOk result (λ sizes. TellsBelow (body_of places.items rows.now first) limit sizes) }
{
    let mut places = places;
    cut_places(&mut places, limit as usize);
    let rows = cut_rows(alloc, limit, rows)?;
    sizes_of(alloc, places, rows, first)
}
