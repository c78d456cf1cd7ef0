//! The edges from the vertices of a block's graph.
ghost use Rattle.std.specs.Prelude.{◌≡◌, ◌+◌, ◌++◌, [], ◌∷◌, length, map, nat_lt, if◌then◌else◌, option_map, IfOk};
ghost use Rattle.std.specs.List.{flat_map};
ghost use Rattle.pt_instr.specs.declared.kinds.Kind.TheVariants.{Value};
ghost use Rattle.pt_instr.specs.Runs.{kinds_of};
ghost use Rattle.pt_sizes.specs.Waiting.{level_of};
ghost use Rattle.sem_fits.specs.fits.Steps.{held_by};
ghost use Rattle.pt_verify_depths.specs.Sizes.{is_enough, left};
ghost use Rattle.pt_block_kinds.specs.Leads.{above_leads, inside, landing_leads, lead_of, leads_again, leads_aside, leads_behind, leads_of, own_leads, place_leads, row_lead, stretch_leads};

use pt_base::Memory;
use pt_instr::{Effect, Kind, Kinds, Run};
use pt_kind_flow::Edge;
use pt_ranges::Handler;
use pt_verify_depths::count;
use std::alloc::Global;

const NO_SLOT: Run = Run {
    kind: Kind::Value,
    count: 0,
};

/// No slots, in runs of one kind.
pub fn no_runs() -> [Run; 3]
    ensures { flat_map kinds_of result ≡ [] }
{
    [NO_SLOT, NO_SLOT, NO_SLOT]
}

fn one(kind: Kind) -> [Run; 3]
    ensures { flat_map kinds_of result ≡ kind ∷ [] }
{
    [NO_SLOT, NO_SLOT, Run { kind, count: 1 }]
}

/// A sum, or `Memory` where it passes 2^64.
pub fn sum(a: usize, b: usize) -> Result<usize, Memory>
    ensures { IfOk result (λ n. n ≡ a + b) }
{
    a.checked_add(b).ok_or(Memory)
}

/// Adds an edge, if it leads to one of the first vertices, so many of them.
fn add(edges: &mut Vec<Edge>, count: usize, edge: Edge) -> Result<(), Memory>
    ensures { IfOk result (λ _. leads_of edges.new.items
        ≡ leads_of edges.old.items ++ inside count (lead_of edge ∷ [])) }
{
    if edge.to < count {
        edges.push(edge)?;
    }
    Ok(())
}

/// How many slots lie below those that are taken.
pub fn left(effect: &Effect, size: u64) -> u64
    ensures { result ≡ left effect.now size }
{
    size.saturating_sub(count(&effect.takes))
}

/// Whether so many slots are enough.
pub fn is_enough(effect: &Effect, size: u64) -> bool
    ensures { result ≡ is_enough effect.now size }
{
    count(&effect.takes) + effect.above.unwrap_or(0) as u64 <= size
}

fn behind_runs(swaps: bool, given: &Kinds) -> [Run; 3]
    ensures { flat_map kinds_of result ≡ (if swaps then Value ∷ [] else given.now) }
{
    if swaps {
        one(Kind::Value)
    } else {
        given.runs()
    }
}

fn add_again(
    edges: &mut Vec<Edge>,
    places: usize,
    again: bool,
    size: u64,
    at: usize,
) -> Result<(), Memory>
    ensures { IfOk result (λ _. leads_of edges.new.items
        ≡ leads_of edges.old.items ++ inside places (leads_again again size at)) }
{
    if !again {
        return Ok(());
    }
    add(
        edges,
        places,
        Edge {
            to: at,
            keeps: size,
            given: no_runs(),
            raises: false,
        },
    )
}

fn add_behind(
    edges: &mut Vec<Edge>,
    places: usize,
    effect: &Effect,
    size: u64,
    next: usize,
) -> Result<(), Memory>
    ensures { IfOk result (λ _. leads_of edges.new.items
        ≡ leads_of edges.old.items
        ++ inside places (leads_behind effect.now size next effect.now.gives)) }
{
    let Some(given) = &effect.gives else {
        return Ok(());
    };
    add(
        edges,
        places,
        Edge {
            to: next,
            keeps: left(effect, size),
            given: behind_runs(effect.swaps, given),
            raises: effect.swaps,
        },
    )
}

fn add_aside(
    edges: &mut Vec<Edge>,
    places: usize,
    effect: &Effect,
    size: u64,
    target: Option<usize>,
) -> Result<(), Memory>
    ensures { IfOk result (λ _. leads_of edges.new.items
        ≡ leads_of edges.old.items
        ++ inside places (leads_aside effect.now size target effect.now.aside)) }
{
    let (Some(to), Some(given)) = (target, &effect.aside) else {
        return Ok(());
    };
    add(
        edges,
        places,
        Edge {
            to,
            keeps: left(effect, size),
            given: given.runs(),
            raises: false,
        },
    )
}

/// Adds the edges of an instruction itself that lead to places, for so many slots.
#[tactic(auto, using(crate::proofs::Adding::own_inside))]
pub fn add_own(
    edges: &mut Vec<Edge>,
    places: usize,
    effect: &Effect,
    size: u64,
    at: usize,
    next: usize,
    target: Option<usize>,
) -> Result<(), Memory>
    ensures { IfOk result (λ _. leads_of edges.new.items
        ≡ leads_of edges.old.items ++ inside places (own_leads effect.now size at next target)) }
{
    if !is_enough(effect, size) {
        return Ok(());
    }
    add_again(edges, places, effect.again, size, at)?;
    add_behind(edges, places, effect, size, next)?;
    add_aside(edges, places, effect, size, target)?;
    Ok(())
}

/// The edges of a place whose instruction has such an effect and finds so many slots.
pub fn edges_of_place(
    alloc: Global,
    places: usize,
    rows_from: usize,
    effect: &Effect,
    size: u64,
    at: usize,
    next: usize,
    target: Option<usize>,
) -> Result<Vec<Edge>, Memory>
    ensures { IfOk result (λ edges. leads_of edges.items
        ≡ place_leads places rows_from effect.now size at next target) }
{
    let mut edges = Vec::with_capacity(alloc, 2)?;
    add_own(&mut edges, places, effect, size, at, next, target)?;
    add(
        &mut edges,
        rows_from,
        Edge {
            to: sum(places, at)?,
            keeps: left(effect, size),
            given: no_runs(),
            raises: false,
        },
    )?;
    Ok(edges)
}

/// Adds the edges to the rows that lie in a stretch.
fn add_rows(edges: &mut Vec<Edge>, rows_from: usize, rows: &[Handler]) -> Result<(), Memory>
    ensures { IfOk result (λ _. leads_of edges.new.items
        ≡ leads_of edges.old.items ++ map (row_lead rows_from) rows.now) }
{
    for row in rows.iter() {
        edges.push(Edge {
            to: sum(rows_from, row.target.0 as usize)?,
            keeps: row.depth as u64,
            given: no_runs(),
            raises: false,
        })?;
    }
    Ok(())
}

/// Adds the edge to the stretch above, if there is one.
fn add_above(
    edges: &mut Vec<Edge>,
    deepest: u32,
    first: usize,
    levels: &[Vec<Vec<Handler>>],
    stretch: usize,
) -> Result<(), Memory>
    ensures { IfOk result (λ _. leads_of edges.new.items
        ≡ leads_of edges.old.items ++ above_leads deepest first (map level_of levels.now) stretch) }
{
    if levels.is_empty() {
        return Ok(());
    }
    edges.push(Edge {
        to: sum(first, stretch / 2)?,
        keeps: deepest as u64,
        given: no_runs(),
        raises: false,
    })?;
    Ok(())
}

/// Adds the edges of a stretch, of those from a level on.
pub fn add_stretch(
    edges: &mut Vec<Edge>,
    rows_from: usize,
    deepest: u32,
    first: usize,
    levels: &[Vec<Vec<Handler>>],
    stretch: usize,
) -> Result<(), Memory>
    ensures { IfOk result (λ _. leads_of edges.new.items
        ≡ leads_of edges.old.items
        ++ stretch_leads rows_from deepest first (map level_of levels.now) stretch) }
{
    match levels {
        [] => Ok(()),
        [level, above @ ..] => {
            let size = level.len();
            let next = sum(first, size)?;
            if stretch >= size {
                return add_stretch(edges, rows_from, deepest, next, above, stretch - size);
            }
            add_above(edges, deepest, next, above, stretch)?;
            add_rows(edges, rows_from, &level[stretch])
        }
    }
}

fn held_by(row: &Handler) -> Kind
    ensures { result ≡ held_by row.now }
{
    if row.always { Kind::Pending } else { Kind::Exc }
}

/// The edge from a row to its target.
pub fn edges_of_row(
    alloc: Global,
    places: usize,
    row: Option<&Handler>,
) -> Result<Vec<Edge>, Memory>
    ensures { IfOk result (λ edges. leads_of edges.items
        ≡ landing_leads places (option_map (λ r. r.now) row.entry)) }
{
    let Some(row) = row else {
        return Ok(Vec::new(alloc));
    };
    let mut edges = Vec::with_capacity(alloc, 1)?;
    add(
        &mut edges,
        places,
        Edge {
            to: row.target.0 as usize,
            keeps: row.depth as u64,
            given: one(held_by(row)),
            raises: false,
        },
    )?;
    Ok(edges)
}
