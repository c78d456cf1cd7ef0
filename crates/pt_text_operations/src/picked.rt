//! Which items a slice picks.

ghost use Rattle.std.specs.Prelude.{◌≡◌, ◌≤◌, length, reverse, IfOk};
ghost use Rattle.pt_text_operations.specs.declared.place.Stride.TheVariants.{Forward, Back};
ghost use Rattle.pt_text_operations.specs.Picked.{every, middle, picked, strided};

use crate::bounds::Bounds;
use crate::place::{Stride, behind_or, place_or, stride_of};
use pt_base::{Memory, Seq};
use pt_heap::Value;
use std::alloc::{AllocError, Global};

/// The items from one place to another.
#[tactic(auto, using(crate::proofs::PickLemmas::none_between))]
fn middle(items: &[Value], from: u128, to: u128) -> &[Value]
    requires { to ≤ length items.now }
    ensures { result.now ≡ middle from to items.now }
{
    let front = &items[..to as usize];
    if from < to {
        return &front[from as usize..];
    }
    &[]
}

/// Each item behind so many that are passed over.
fn every(alloc: Global, items: &[Value], between: u128) -> Result<Seq<Value>, Memory>
    ensures { IfOk result (λ picked. picked ≡ every between 0 items.now) }
{
    let mut picked = Seq::new(alloc);
    let mut pass = 0;
    for item in items {
        if pass == 0 {
            picked.push(*item)?;
            pass = between;
        } else {
            pass -= 1;
        }
    }
    Ok(picked)
}

/// Items, the last one first.
fn backwards(alloc: Global, items: &[Value]) -> Result<Vec<Value>, AllocError>
    ensures { IfOk result (λ v. v.items ≡ reverse items.now) }
{
    items.iter().rev().copied().collect(alloc)
}

/// The items that a step of so many between two picks.
fn forward(
    alloc: Global,
    bounds: Bounds,
    items: &[Value],
    between: u128,
) -> Result<Seq<Value>, Memory>
    ensures { IfOk result (λ picked. picked ≡ strided (Forward between) bounds items.now) }
{
    let count = items.len() as u128;
    let from = place_or(count, bounds.start, 0);
    let to = place_or(count, bounds.stop, count);
    every(alloc, middle(items, from, to), between)
}

/// The same from the last item back.
fn back(alloc: Global, bounds: Bounds, items: &[Value], between: u128) -> Result<Seq<Value>, Memory>
    ensures { IfOk result (λ picked. picked ≡ strided (Back between) bounds items.now) }
{
    let count = items.len() as u128;
    let from = behind_or(count, bounds.stop, 0);
    let to = behind_or(count, bounds.start, count);
    let items = backwards(alloc, middle(items, from, to))?;
    every(alloc, items.as_slice(), between)
}

/// The items that a slice picks (Language Reference 6.3.3).
pub fn picked(alloc: Global, bounds: Bounds, items: &[Value]) -> Result<Seq<Value>, Memory>
    ensures { IfOk result (λ items_picked. items_picked ≡ picked bounds items.now) }
{
    match stride_of(bounds.step) {
        Stride::Forward(between) => forward(alloc, bounds, items, between),
        Stride::Back(between) => back(alloc, bounds, items, between),
    }
}
