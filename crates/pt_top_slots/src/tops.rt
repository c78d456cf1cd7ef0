//! The class of the topmost slot of each place.
ghost use Rattle.std.specs.Prelude.{◌≡◌, ℕ, List, length, IfOk};
ghost use Rattle.pt_joins.specs.declared.joins.Join.{Join};
ghost use Rattle.pt_joins.specs.Joins.{IsForest, TellsJoins};
ghost use Rattle.pt_top_slots.specs.Numbers.{AreNumbers, Classed, StandsFor};
ghost use Rattle.pt_top_slots.specs.TopSlots.{AreTops};

use crate::numbers::Numbers;
use pt_base::Memory;
use pt_joins::Joins;
use std::alloc::Global;

/// The classes of the topmost slots of places: numbers below a count.
#[derive(Debug, Drop)]
pub struct TopSlots {
    pub classes: Vec<Option<usize>>,
    pub count: usize,
}

/// What stands for a place on a level. One of which nothing is told stands for itself.
fn root_of(joins: &Joins, place: usize, level: u64) -> usize
    requires { IsForest joins.now.nodes.items }
    ensures { StandsFor joins.now.nodes.items level place result }
{
    if place < joins.nodes.len() {
        joins.root_at(place, level)
    } else {
        place
    }
}

/// The class of the topmost of so many slots of a place.
fn class_of(
    joins: &Joins,
    numbers: &mut Numbers,
    place: usize,
    size: Option<u64>,
) -> Result<Option<usize>, Memory>
    requires forest { IsForest joins.now.nodes.items }
    requires numbers { AreNumbers numbers.old }
    ensures { IfOk result (λ class. Classed joins.now.nodes.items place size class
        numbers.old numbers.new) }
{
    let Some(size) = size else {
        return Ok(None);
    };
    let Some(level) = size.checked_sub(1) else {
        return Ok(None);
    };
    let root = root_of(joins, place, level);
    let number = numbers.number(root, level)?;
    Ok(Some(number))
}

/// The classes of the topmost slots of places of these sizes: two have one number where they lie on
/// one level and the places are joined there. For n places it takes time O(n log n).
///
/// # Errors
///
/// `Memory` for want of it.
pub fn top_slots(alloc: Global, joins: &Joins, sizes: &[Option<u64>]) -> Result<TopSlots, Memory>
    requires { IsForest joins.now.nodes.items }
    ensures { IfOk result (λ tops. (joined : List Join) (count : ℕ)
        → TellsJoins joined count joins.now.nodes.items → AreTops joined sizes.now tops) }
{
    let mut numbers = Numbers::new(alloc);
    let mut classes = Vec::new(alloc);
    for place in 0..sizes.len() {
        classes.push(class_of(joins, &mut numbers, place, sizes[place])?)?;
    }
    Ok(TopSlots {
        classes,
        count: numbers.count,
    })
}
