//! What edges lead to from a vertex of the graph.
ghost use Rattle.std.specs.Prelude.{◌≡◌, ◌+◌, ◌++◌, [], ◌∷◌, map, if◌then◌else◌, IfOk};
ghost use Rattle.pt_sizes.specs.Waiting.{level_of};
ghost use Rattle.pt_step_graph.specs.Steps.{own, some_of};
ghost use Rattle.pt_step_graph.specs.Graph.{bundle_next, held_next, place_next, stretch_next, targets, within};

use crate::exits::Exits;
use pt_base::Memory;
use pt_ranges::Handler;

pub fn sum(a: usize, b: usize) -> Result<usize, Memory>
    ensures { IfOk result (λ n. n ≡ a + b) }
{
    a.checked_add(b).ok_or(Memory)
}

/// Adds a place, if it is one.
fn add_place(work: &mut Vec<usize>, count: usize, to: usize) -> Result<(), Memory>
    ensures { IfOk result (λ _. work.new.items ≡ work.old.items ++ within count (to ∷ [])) }
{
    if to < count {
        work.push(to)?;
    }
    Ok(())
}

fn add_exit(work: &mut Vec<usize>, count: usize, to: Option<usize>) -> Result<(), Memory>
    ensures { IfOk result (λ _. work.new.items ≡ work.old.items ++ within count (some_of to)) }
{
    match to {
        None => Ok(()),
        Some(to) => add_place(work, count, to),
    }
}

fn add_again(work: &mut Vec<usize>, count: usize, again: bool, at: usize) -> Result<(), Memory>
    ensures { IfOk result (λ _. work.new.items
        ≡ work.old.items ++ within count (if again then at ∷ [] else [])) }
{
    if again {
        add_place(work, count, at)?;
    }
    Ok(())
}

/// Adds the places to which an instruction itself goes on.
#[tactic(auto, using(crate::proofs::Lists::own_within))]
fn add_own(work: &mut Vec<usize>, count: usize, exits: Exits, at: usize) -> Result<(), Memory>
    ensures { IfOk result (λ _. work.new.items ≡ work.old.items ++ within count (own exits at)) }
{
    add_exit(work, count, exits.onward)?;
    add_exit(work, count, exits.aside)?;
    add_again(work, count, exits.again, at)?;
    Ok(())
}

/// Adds the vertex of a bundle.
fn add_held(
    work: &mut Vec<usize>,
    count: usize,
    bundles: usize,
    held: Option<usize>,
) -> Result<(), Memory>
    ensures { IfOk result (λ _. work.new.items
        ≡ work.old.items ++ held_next count bundles held) }
{
    let Some(bundle) = held else {
        return Ok(());
    };
    if bundle < bundles {
        work.push(sum(count, bundle)?)?;
    }
    Ok(())
}

/// Adds what a place leads to: places, its bundle, and the least stretch in which it lies.
pub fn add_from_place(
    work: &mut Vec<usize>,
    count: usize,
    bundles: usize,
    first: usize,
    at: usize,
    exits: Option<Exits>,
) -> Result<(), Memory>
    ensures { IfOk result (λ _. work.new.items
        ≡ work.old.items ++ place_next count bundles first at exits) }
{
    let Some(exits) = exits else {
        return Ok(());
    };
    add_own(work, count, exits, at)?;
    add_held(work, count, bundles, exits.held)?;
    work.push(sum(first, at)?)?;
    Ok(())
}

/// Adds the places of a bundle.
pub fn add_bundle(work: &mut Vec<usize>, count: usize, places: &[usize]) -> Result<(), Memory>
    ensures { IfOk result (λ _. work.new.items ≡ work.old.items ++ within count places.now) }
{
    for number in 0..places.len() {
        add_place(work, count, places[number])?;
    }
    Ok(())
}

/// Adds the targets of rows.
fn add_targets(work: &mut Vec<usize>, count: usize, rows: &[Handler]) -> Result<(), Memory>
    ensures { IfOk result (λ _. work.new.items ≡ work.old.items ++ targets count rows.now) }
{
    for number in 0..rows.len() {
        add_place(work, count, rows[number].target.0 as usize)?;
    }
    Ok(())
}

/// Adds what a stretch leads to: the targets of its rows, and the stretch of the level above in
/// which it lies.
pub fn add_from_stretch(
    work: &mut Vec<usize>,
    count: usize,
    first: usize,
    levels: &[Vec<Vec<Handler>>],
    stretch: usize,
) -> Result<(), Memory>
    ensures { IfOk result (λ _. work.new.items
        ≡ work.old.items ++ stretch_next count first (map level_of levels.now) stretch) }
{
    match levels {
        [] => Ok(()),
        [level, above @ ..] => {
            let size = level.len();
            let next = sum(first, size)?;
            if stretch >= size {
                return add_from_stretch(work, count, next, above, stretch - size);
            }
            add_targets(work, count, &level[stretch])?;
            if !above.is_empty() {
                work.push(sum(next, stretch / 2)?)?;
            }
            Ok(())
        }
    }
}
