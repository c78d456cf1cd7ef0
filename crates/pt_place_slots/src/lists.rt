//! The lists of kinds at places.
ghost use Rattle.std.specs.Prelude.{◌≡◌, ◌<◌, slice_index_or, Some, None, option_map, IfOk, IfSome};
ghost use Rattle.pt_places.specs.PlaceTable.{entry};
ghost use Rattle.pt_kinds.specs.Forest.{IsForest};
ghost use Rattle.pt_kind_flow.specs.Search.{IsFlow};
ghost use Rattle.pt_place_slots.specs.Lists.{AreHeld, AreListed, IsListed, Lists, TellsListed, held_up_to};

use pt_base::Memory;
use pt_block_kinds::{BlockKinds, place_at};
use pt_instr::Kind;
use pt_kinds::Forest;
use pt_places::Places;
use std::alloc::Global;

/// The list of kinds at a place.
#[derive(Clone, Copy, Debug)]
pub struct KindList {
    pub list: usize,
    /// How many slots it has.
    pub count: u32,
    /// How many of its lowest slots there are up to the topmost that holds a completion.
    pub held: u32,
}

/// How many slots there are up to the topmost that holds a completion, of a run upon a list of
/// which it is known.
fn held_up_to(kind: Kind, length: u64, below: u64) -> u64
    ensures { result ≡ held_up_to kind length below }
{
    match kind {
        Kind::Pending => length,
        _ => below,
    }
}

fn held_in(held: &[u64], list: usize) -> u64
    ensures { result ≡ slice_index_or held.now list 0 }
{
    match held.get(list) {
        None => 0,
        Some(count) => *count,
    }
}

/// How many slots of each list there are up to the topmost that holds a completion.
fn held_of_lists(alloc: Global, forest: &Forest) -> Result<Vec<u64>, Memory>
    requires { IsForest forest.now }
    ensures { IfOk result (λ held. AreHeld forest.now held.items) }
{
    let mut held = Vec::new(alloc);
    for list in 0..forest.nodes.len() {
        let node = forest.nodes[list];
        held.push(held_up_to(node.kind, node.length, held_in(&held, node.parent)))?;
    }
    Ok(held)
}

fn kind_list(forest: &Forest, held: &[u64], list: usize) -> Result<KindList, Memory>
    requires forest { IsForest forest.now }
    requires held { AreHeld forest.now held.now }
    ensures same { IfOk result (λ l. l.list ≡ list) }
    ensures exact { IfOk result (λ l. IsListed forest.now l) }
{
    if list >= forest.nodes.len() {
        return Err(Memory);
    }
    let (Ok(count), Ok(held)) = (
        u32::try_from(forest.len(list)),
        u32::try_from(held_in(held, list)),
    ) else {
        return Err(Memory);
    };
    Ok(KindList { list, count, held })
}

/// The list of a place, if an instruction starts there.
fn listed_at(
    kinds: &BlockKinds,
    places: &Places,
    held: &[u64],
    at: usize,
) -> Result<Option<KindList>, Memory>
    requires flow { IsFlow kinds.now.flow }
    requires held { AreHeld kinds.now.flow.forest held.now }
    ensures exact { IfOk result (λ l. TellsListed kinds.now (entry places.now at) at l) }
    ensures listed { IfOk result (λ l. Lists kinds.now.flow.forest l) }
{
    let place = place_at(places, at)?;
    if place.is_none() {
        return Ok(None);
    }
    match kinds.kinds_at(at) {
        None => Ok(None),
        Some(list) => Ok(Some(kind_list(&kinds.flow.forest, held, list)?)),
    }
}

/// The lists of the places below a count.
pub fn lists_at(
    alloc: Global,
    kinds: &BlockKinds,
    places: &Places,
    count: usize,
) -> Result<Vec<Option<KindList>>, Memory>
    requires { IsFlow kinds.now.flow }
    ensures { IfOk result (λ table. AreListed kinds.now places.now count table.items) }
{
    let held = held_of_lists(alloc, &kinds.flow.forest)?;
    let mut table = Vec::new(alloc);
    for at in 0..count {
        table.push(listed_at(kinds, places, &held, at)?)?;
    }
    Ok(table)
}
