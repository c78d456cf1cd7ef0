//! What a Leave goes on from: where rows take it first, and the places in each class.
ghost use Rattle.std.specs.Prelude.{◌≡◌, ◌++◌, ◌+◌, ◌<◌, ℕ, List, length, Option, option_map, IfOk};
ghost use Rattle.pt_ranges.specs.declared.handlers.Handler.{Handler};
ghost use Rattle.pt_sizes.specs.Flow.{entry};
ghost use Rattle.sem_fits.specs.fits.Leaves.{taker};
ghost use Rattle.pt_takers.specs.Takers.{TellsTakers};
ghost use Rattle.pt_verify_leaves.specs.Onto.{Knows, KnowsAt, ListsBelow, ended_at, made_by, member_at, rows_at, seed_at, with_number};
ghost use Rattle.pt_verify_leaves.specs.Tables.{HasEnded};

use pt_base::{Memory, Pc};
use pt_instr::Instr;
use pt_places::{Place, Places};
use pt_takers::Takers;
use std::alloc::Global;

pub fn pc_of(at: usize) -> Result<Pc, Memory>
    ensures { IfOk result (λ pc. pc.0 ≡ at) }
{
    match u32::try_from(at) {
        Err(_) => Err(Memory),
        Ok(pc) => Ok(Pc(pc)),
    }
}

pub fn class_at(classes: &[Option<usize>], at: usize) -> Option<usize>
    ensures { result ≡ entry classes.now at }
{
    match classes.get(at) {
        None => None,
        Some(class) => *class,
    }
}

/// The class of the slot of the row that takes a Leave from a place.
pub fn taken_into(takers: &Takers, classes: &[Option<usize>], pc: Pc, target: Pc) -> Option<usize>
    ensures { (rows : List Handler) (count : ℕ) → TellsTakers rows count takers.now → pc.0 < count
        → result ≡ made_by classes.now (taker (rows_at rows pc.0) target.0) }
{
    match takers.first(pc, target) {
        None => None,
        Some(row) => class_at(classes, row.target.0 as usize),
    }
}

/// Adds a class with a number.
pub fn add(
    pairs: &mut Vec<(usize, usize)>,
    class: Option<usize>,
    number: usize,
) -> Result<(), Memory>
    ensures { IfOk result (λ _. pairs.new.items ≡ pairs.old.items ++ with_number number class) }
{
    match class {
        None => Ok(()),
        Some(class) => {
            pairs.push((class, number))?;
            Ok(())
        }
    }
}

/// Adds where a row takes the Leave that stands at a place.
fn add_seed(
    seeds: &mut Vec<(usize, usize)>,
    takers: &Takers,
    classes: &[Option<usize>],
    pc: Pc,
    place: Option<&Place>,
    size: Option<u64>,
) -> Result<(), Memory>
    ensures { IfOk result (λ _. (rows : List Handler)
        → KnowsAt pc.0 (option_map (λ p. p.now) place.entry) rows takers.now
        → seeds.new.items ≡ seeds.old.items
        ++ seed_at rows classes.now pc.0 (option_map (λ p. p.now) place.entry) size) }
{
    let Some(place) = place else {
        return Ok(());
    };
    let Some(_) = size else {
        return Ok(());
    };
    let Instr::Leave(target) = place.instr else {
        return Ok(());
    };
    add(
        seeds,
        taken_into(takers, classes, pc, target),
        target.0 as usize,
    )
}

/// The classes into which rows take Leaves from their own places, each with the target.
pub fn seeds(
    alloc: Global,
    places: &Places,
    takers: &Takers,
    classes: &[Option<usize>],
    sizes: &[Option<u64>],
    end: usize,
) -> Result<Vec<(usize, usize)>, Memory>
    requires { end < length sizes.now + 1 }
    ensures { IfOk result (λ seeds. (rows : List Handler) → Knows places.now rows takers.now
        → ListsBelow (λ pc. seed_at rows classes.now pc (entry places.now pc) (entry sizes.now pc))
        end seeds.items) }
{
    let mut seeds = Vec::new(alloc);
    for at in 0..end {
        let pc = pc_of(at)?;
        add_seed(&mut seeds, takers, classes, pc, places.at(pc), sizes[at])?;
    }
    Ok(seeds)
}

fn add_member(
    members: &mut Vec<(usize, usize)>,
    class: Option<usize>,
    at: usize,
    place: Option<&Place>,
) -> Result<(), Memory>
    ensures { IfOk result (λ _. members.new.items ≡ members.old.items
        ++ member_at class at (option_map (λ p. p.now) place.entry)) }
{
    let Some(place) = place else {
        return Ok(());
    };
    match place.instr {
        Instr::EndFinally | Instr::Exit => add(members, class, at),
        _ => Ok(()),
    }
}

/// The places of EndFinally and Exit, each behind the class of its topmost slot.
pub fn members(
    alloc: Global,
    places: &Places,
    classes: &[Option<usize>],
    end: usize,
) -> Result<Vec<(usize, usize)>, Memory>
    ensures { IfOk result (λ members. ListsBelow
        (λ pc. member_at (entry classes.now pc) pc (entry places.now pc)) end members.items) }
{
    let mut members = Vec::new(alloc);
    for at in 0..end {
        let pc = pc_of(at)?;
        add_member(&mut members, class_at(classes, at), at, places.at(pc))?;
    }
    Ok(members)
}

/// The class of what an EndFinally takes.
fn ended_at(class: Option<usize>, place: Option<&Place>) -> Option<usize>
    ensures { result ≡ ended_at class (option_map (λ p. p.now) place.entry) }
{
    let Some(place) = place else {
        return None;
    };
    match place.instr {
        Instr::EndFinally => class,
        _ => None,
    }
}

/// For each place of an EndFinally the class of what it takes.
pub fn ended(
    alloc: Global,
    places: &Places,
    classes: &[Option<usize>],
    end: usize,
) -> Result<Vec<Option<usize>>, Memory>
    ensures { IfOk result (λ held. HasEnded places.now classes.now end held.items) }
{
    let mut held = Vec::new(alloc);
    for at in 0..end {
        let pc = pc_of(at)?;
        held.push(ended_at(class_at(classes, at), places.at(pc)))?;
    }
    Ok(held)
}
