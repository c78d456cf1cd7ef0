//! What an instruction's own steps keep.
ghost use Rattle.std.specs.Prelude.{◌≡◌, ◌++◌, Option, option_map, option_to_list, IfOk};
ghost use Rattle.pt_instr.specs.Effects.{effect_of};
ghost use Rattle.sem_code.specs.slots.BlockObject.{target_of};
ghost use Rattle.pt_sizes.specs.Flow.{entry};
ghost use Rattle.pt_row_joins.specs.Rows.{Lists};
ghost use Rattle.pt_common_slots.specs.Joins.{IsOwn, aside_join, given_join, leave_join, onward_join, own_joins};

use pt_base::{Memory, Pc};
use pt_instr::{Instr, Kinds, effect};
use pt_joins::Join;
use pt_places::{Place, Places};
use pt_row_joins::add;
use pt_verify_depths::{count, target_of};
use std::alloc::Global;

fn size_at(sizes: &[Option<u64>], at: usize) -> Option<u64>
    ensures { result ≡ entry sizes.now at }
{
    match sizes.get(at) {
        None => None,
        Some(size) => *size,
    }
}

/// Of as many slots as lie at a place behind an instruction that gives some, those that it keeps.
fn given_join(
    at: usize,
    to: usize,
    there: Option<u64>,
    given: &Option<Kinds>,
    keeps: u32,
) -> Option<Join>
    ensures { result ≡ given_join at to there given.now keeps }
{
    let Some(size) = there else {
        return None;
    };
    let Some(given) = given else {
        return None;
    };
    let given = count(given);
    let levels = size.saturating_sub(given) + (keeps as u64).min(given);
    Some(Join {
        one: at,
        other: to,
        levels,
    })
}

fn onward_join(at: usize, place: &Place, sizes: &[Option<u64>]) -> Option<Join>
    ensures { result ≡ onward_join sizes.now at place.now }
{
    let effect = effect(&place.instr, 0);
    let next = place.next.0 as usize;
    given_join(at, next, size_at(sizes, next), &effect.gives, effect.keeps)
}

fn join_at(
    at: usize,
    target: Option<Pc>,
    given: &Option<Kinds>,
    keeps: u32,
    sizes: &[Option<u64>],
) -> Option<Join>
    ensures { result ≡ aside_join sizes.now at (option_map (λ t. t.0) target) given.now keeps }
{
    match target {
        None => None,
        Some(to) => {
            let to = to.0 as usize;
            given_join(at, to, size_at(sizes, to), given, keeps)
        }
    }
}

fn aside_join(at: usize, place: &Place, sizes: &[Option<u64>]) -> Option<Join>
    ensures { result ≡ aside_join sizes.now at (target_of place.now.instr)
        (effect_of place.now.instr 0).aside (effect_of place.now.instr 0).keeps }
{
    let effect = effect(&place.instr, 0);
    join_at(
        at,
        target_of(&place.instr),
        &effect.aside,
        effect.keeps,
        sizes,
    )
}

/// The step of a Leave to its target.
fn leave_join(at: usize, instr: &Instr, size: u64, sizes: &[Option<u64>]) -> Option<Join>
    ensures { result ≡ leave_join sizes.now at instr.now size }
{
    let Instr::Leave(to) = *instr else {
        return None;
    };
    let to = to.0 as usize;
    match size_at(sizes, to) {
        None => None,
        Some(there) => Some(Join {
            one: at,
            other: to,
            levels: there.min(size),
        }),
    }
}

fn add_all(
    joins: &mut Vec<Join>,
    at: usize,
    place: &Place,
    size: u64,
    sizes: &[Option<u64>],
) -> Result<(), Memory>
    ensures { IfOk result (λ _. joins.new.items ≡ joins.old.items
        ++ (option_to_list (onward_join sizes.now at place.now)
        ++ (option_to_list (aside_join sizes.now at (target_of place.now.instr)
        (effect_of place.now.instr 0).aside (effect_of place.now.instr 0).keeps)
        ++ option_to_list (leave_join sizes.now at place.now.instr size)))) }
{
    add(joins, onward_join(at, place, sizes))?;
    add(joins, aside_join(at, place, sizes))?;
    add(joins, leave_join(at, &place.instr, size, sizes))?;
    Ok(())
}

fn add_own(
    joins: &mut Vec<Join>,
    at: usize,
    place: Option<&Place>,
    sizes: &[Option<u64>],
) -> Result<(), Memory>
    ensures { IfOk result (λ _. joins.new.items ≡ joins.old.items
        ++ own_joins sizes.now at (option_map (λ p. p.now) place.entry) (entry sizes.now at)) }
{
    let Some(place) = place else {
        return Ok(());
    };
    match size_at(sizes, at) {
        None => Ok(()),
        Some(size) => add_all(joins, at, place, size, sizes),
    }
}

/// What the own steps of the places at the limit and below keep.
pub fn own_joins(
    alloc: Global,
    places: &Places,
    sizes: &[Option<u64>],
    limit: Pc,
) -> Result<Vec<Join>, Memory>
    ensures { IfOk result (λ joins. Lists (IsOwn places.now sizes.now limit.0) joins.items) }
{
    let mut joins = Vec::new(alloc);
    let end = sizes.len().min(limit.0 as usize + 1);
    for at in 0..end {
        let Ok(pc) = u32::try_from(at) else {
            return Err(Memory);
        };
        add_own(&mut joins, at, places.at(Pc(pc)), sizes)?;
    }
    Ok(joins)
}
