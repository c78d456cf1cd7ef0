//! The tables of a script's names, made from the places at which it mentions them.

ghost use Rattle.std.specs.Prelude.{◌≡◌, ◌||◌, ◌&&◌, ◌==◌, filter, slice_get, if◌then◌else◌, IfOk, OnOk};
ghost use Rattle.std.specs.List.{list_any};
ghost use Rattle.sem_names.specs.BlockNames.{has_class, is_class_of, is_up_to, read_free, with_name};
ghost use Rattle.sem_names.specs.Naming.{is_captured, is_captured_by, is_free_at};
ghost use Rattle.sem_names.specs.Regions.{class_of, is_among, left_behind, numbered};
ghost use Rattle.sem_names.specs.Script.{functions_among};
ghost use Rattle.pt_scopes.specs.NameSets.{is_in};
ghost use Rattle.pt_scopes.specs.Scope.{home_of};
ghost use Rattle.pt_symbols.specs.RegionSets.{has_region};
ghost use Rattle.pt_symbols.specs.Tables.{mentions_at, mentions_in, names_in, next_in, next_too};

use crate::{FreeNames, MentionTable, NextTable, PlaceTable, RegionSet};
use pt_base::Memory;
use pt_scopes::{Kind, Mention, NameSet};
use sem_names::BlockShape;
use std::alloc::Global;

/// Comprehensions by the numbers of their first Nexts, which come by region. Of several with a number
/// the first is found.
pub fn next_table(
    alloc: Global,
    places: &PlaceTable,
    nexts: &[Option<u32>],
) -> Result<NextTable, Memory>
    ensures { IfOk result (λ t. (h : _) (n : _)
        → next_in t h n ≡ numbered places.now.regions nexts.now h n) }
{
    let mut table = NextTable::new(alloc);
    let mut at = nexts.len();
    while at > 0 {
        at -= 1;
        let next = nexts[at];
        note_next(alloc, &mut table, places, at, next)?;
    }
    Ok(table)
}

fn note_next(
    alloc: Global,
    table: &mut NextTable,
    places: &PlaceTable,
    region: usize,
    next: Option<u32>,
) -> Result<(), Memory>
    ensures { OnOk result ((h : _) (n : _) → next_in table.new h n
        ≡ next_too (slice_get places.now.regions region) next region h n (next_in table.old h n)) }
{
    match places.region(region) {
        Some(here) => match next {
            Some(next) => table.put(alloc, here.home, next, region),
            None => Ok(()),
        },
        None => Ok(()),
    }
}

/// The mentions of names in each block.
pub fn mention_table(alloc: Global, places: &PlaceTable) -> Result<MentionTable, Memory>
    ensures { IfOk result (λ t. (h : _) → mentions_at places.now.mentions (mentions_in t h)
        ≡ filter (λ m. home_of places.now.regions m.region == h) places.now.mentions) }
{
    let mut table = MentionTable::new(alloc);
    let mentions = places.mentions();
    for (place, m) in mentions.iter().enumerate() {
        table.push(alloc, places.home(m.region), place)?;
    }
    Ok(table)
}

/// The names that regions have free.
pub fn free_names(alloc: Global, places: &PlaceTable) -> Result<FreeNames, Memory>
    ensures { IfOk result (λ f. (r : _) → names_in f r ≡ read_free places.now r) }
{
    let mut frees = FreeNames::new(alloc);
    let mentions = places.mentions();
    for m in mentions {
        note_free(alloc, &mut frees, places, m)?;
    }
    Ok(frees)
}

fn note_free(
    alloc: Global,
    frees: &mut FreeNames,
    places: &PlaceTable,
    m: &Mention,
) -> Result<(), Memory>
    ensures { OnOk result ((r : _) → names_in frees.new r
        ≡ (if is_free_at places.now r m.now then with_name (names_in frees.old r) m.now.name
        else names_in frees.old r)) }
{
    match places.meant(m.region, m.name.as_str()) {
        Some(owner) => note_on_way(alloc, frees, places, owner, m.region, m.name.as_str()),
        None => Ok(()),
    }
}

/// A name is free in each region that is left before its own is reached.
fn note_on_way(
    alloc: Global,
    frees: &mut FreeNames,
    places: &PlaceTable,
    owner: usize,
    region: usize,
    name: &str,
) -> Result<(), Memory>
    ensures { OnOk result ((r : _) → names_in frees.new r
        ≡ (if is_among (left_behind places.now.regions owner region) r
        then with_name (names_in frees.old r) name.now else names_in frees.old r)) }
{
    let mut at = region;
    let mut left = places.region_count();
    while left > 0 {
        left -= 1;
        if at == owner {
            return Ok(());
        }
        frees.add(alloc, at, name)?;
        match places.outside(at) {
            Some(around) => at = around,
            None => return Ok(()),
        }
    }
    Ok(())
}

/// The names of functions and comprehensions that some block has free.
pub fn captured_names(alloc: Global, places: &PlaceTable) -> Result<NameSet, Memory>
    ensures { IfOk result (λ s. (q : _) (x : _) → is_in s q x ≡ is_captured places.now q x) }
{
    let mut captured = NameSet::new(alloc);
    let mentions = places.mentions();
    for m in mentions {
        note_captured(alloc, &mut captured, places, m)?;
    }
    Ok(captured)
}

fn note_captured(
    alloc: Global,
    captured: &mut NameSet,
    places: &PlaceTable,
    m: &Mention,
) -> Result<(), Memory>
    ensures { OnOk result ((q : _) (x : _) → is_in captured.new q x
        ≡ (is_in captured.old q x || is_captured_by places.now q x m.now)) }
{
    match places.meant(m.region, m.name.as_str()) {
        Some(owner) => {
            if places.comes_through(owner, m.region) {
                captured.add(alloc, owner, m.name.as_str())
            } else {
                Ok(())
            }
        }
        None => Ok(()),
    }
}

/// The regions that have the class of their functions free, or make it.
pub fn class_regions(
    alloc: Global,
    places: &PlaceTable,
    blocks: &[BlockShape],
) -> Result<RegionSet, Memory>
    ensures { IfOk result (λ s. (r : _) → has_region s r
        ≡ has_class places.now.regions (functions_among blocks.now places.now.blocks) r) }
{
    let mut classes = RegionSet::new(alloc);
    let regions = places.blocks();
    for (at, block) in blocks.iter().enumerate() {
        match regions.get(at) {
            Some(region) => note_block(&mut classes, places, block, *region)?,
            None => return Ok(classes),
        }
    }
    Ok(classes)
}

fn note_block(
    classes: &mut RegionSet,
    places: &PlaceTable,
    block: &BlockShape,
    region: usize,
) -> Result<(), Memory>
    ensures { OnOk result ((r : _) → has_region classes.new r
        ≡ (has_region classes.old r || (block.now.is_function
        && is_up_to places.now.regions r (class_of places.now.regions region) region))) }
{
    if block.is_function {
        note_class(classes, places, region)
    } else {
        Ok(())
    }
}

/// The class of a function, in each region up to it.
fn note_class(classes: &mut RegionSet, places: &PlaceTable, function: usize) -> Result<(), Memory>
    ensures { OnOk result ((r : _) → has_region classes.new r
        ≡ (has_region classes.old r
        || is_up_to places.now.regions r (class_of places.now.regions function) function)) }
{
    match places.class_around(function) {
        Some(class) => {
            classes.add(class)?;
            note_class_on_way(classes, places, class, function)
        }
        None => Ok(()),
    }
}

fn note_class_on_way(
    classes: &mut RegionSet,
    places: &PlaceTable,
    class: usize,
    region: usize,
) -> Result<(), Memory>
    ensures { OnOk result ((r : _) → has_region classes.new r
        ≡ (has_region classes.old r
        || is_among (left_behind places.now.regions class region) r)) }
{
    let mut at = region;
    let mut left = places.region_count();
    while left > 0 {
        left -= 1;
        if at == class {
            return Ok(());
        }
        classes.add(at)?;
        match places.outside(at) {
            Some(around) => at = around,
            None => return Ok(()),
        }
    }
    Ok(())
}

/// The blocks that make a class among those that functions may ask for.
pub fn class_makers(
    alloc: Global,
    places: &PlaceTable,
    classes: &RegionSet,
) -> Result<RegionSet, Memory>
    ensures { IfOk result (λ s. (h : _) → has_region s h
        ≡ list_any (λ c. is_class_of places.now.regions h (slice_get places.now.regions c)
        && has_region classes.now c) places.now.blocks) }
{
    let mut makers = RegionSet::new(alloc);
    let blocks = places.blocks();
    for region in blocks {
        note_maker(&mut makers, places, classes, *region)?;
    }
    Ok(makers)
}

fn note_maker(
    makers: &mut RegionSet,
    places: &PlaceTable,
    classes: &RegionSet,
    region: usize,
) -> Result<(), Memory>
    ensures { OnOk result ((h : _) → has_region makers.new h
        ≡ (has_region makers.old h
        || (is_class_of places.now.regions h (slice_get places.now.regions region)
        && has_region classes.now region))) }
{
    match places.region(region) {
        Some(here) => {
            if here.kind == Kind::Class && classes.has(region) {
                makers.add(places.home(here.around))
            } else {
                Ok(())
            }
        }
        None => Ok(()),
    }
}
