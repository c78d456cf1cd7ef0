//! Slices of ranges.

ghost use Rattle.std.specs.Prelude.{◌≡◌, ◌-ℤ◌, ◌*ℤ◌, ◌+ℤ◌, ℕ, pos, SomeIff, FitsSigned};
ghost use Rattle.std.specs.Int.{w128};
ghost use Rattle.pt_text_operations.specs.declared.place.Stride.TheVariants.{Forward, Back};
ghost use Rattle.pt_sequences.specs.Ranges.{range_length};
ghost use Rattle.pt_text_operations.specs.Picked.{exact, exact_range, picked_range, range_strided};
ghost use Rattle.pt_text_operations.specs.Picked.{standing, standing_before, step_by};

use crate::bounds::Bounds;
use crate::place::{Stride, behind_or, place_or, stride_of};
use pt_base::What;
use pt_content::{Content, NewObject};
use pt_heap::Range;
use pt_sequences::range_length;

/// The integer that stands so many steps behind another, if it is one of 128 bits.
fn stepped(start: i128, step: i128, count: u128) -> Option<i128>
    ensures { SomeIff result (FitsSigned w128 (start +ℤ (pos count *ℤ step)))
        (start +ℤ (pos count *ℤ step)) }
{
    let offset = count.checked_mul(step.unsigned_abs())?;
    if step < 0 {
        start.checked_sub_unsigned(offset)
    } else {
        start.checked_add_unsigned(offset)
    }
}

/// The same, said of the exact result.
fn exactly_stepped(start: i128, step: i128, count: u128) -> Option<i128>
    ensures { result ≡ exact (start +ℤ (pos count *ℤ step)) }
{
    stepped(start, step, count)
}

/// A difference, if it is an integer of 128 bits.
fn difference(a: i128, b: i128) -> Option<i128>
    ensures { result ≡ exact (a -ℤ b) }
{
    a.checked_sub(b)
}

/// A product, if it is an integer of 128 bits.
fn product(a: i128, b: i128) -> Option<i128>
    ensures { result ≡ exact (a *ℤ b) }
{
    a.checked_mul(b)
}

/// The integer at a place of a range, or that would stand there behind its last.
fn standing(range: Range, place: u128) -> Option<i128>
    ensures { result ≡ standing range place }
{
    exactly_stepped(range.start, range.step, place)
}

/// The integer before a place, or that would stand there before its first.
#[tactic(auto, using(crate::proofs::ExactLemmas::before_some))]
fn standing_before(range: Range, place: u128) -> Option<i128>
    ensures { result ≡ standing_before range place }
{
    if place == 0 {
        return difference(range.start, range.step);
    }
    standing(range, place - 1)
}

/// A step of so many steps of a range.
fn step_by(step: Option<i128>, range: Range) -> Option<i128>
    ensures { result ≡ step_by step range }
{
    match step {
        Some(step) => product(step, range.step),
        None => Some(range.step),
    }
}

/// A range, if its bounds and its step are there.
fn exact_range(start: Option<i128>, stop: Option<i128>, step: Option<i128>) -> Content
    ensures { result ≡ exact_range start stop step }
{
    match (start, stop, step) {
        (Some(start), Some(stop), Some(step)) => {
            Content::New(NewObject::Range(Range { start, stop, step }))
        }
        _ => Content::Outside(What::Integer),
    }
}

fn forward(bounds: Bounds, range: Range) -> Content
    ensures { (between : ℕ)
        → result ≡ range_strided (Forward between) bounds (range_length range) range }
{
    let count = range_length(range);
    let start = standing(range, place_or(count, bounds.start, 0));
    let stop = standing(range, place_or(count, bounds.stop, count));
    exact_range(start, stop, step_by(bounds.step, range))
}

fn back(bounds: Bounds, range: Range) -> Content
    ensures { (between : ℕ)
        → result ≡ range_strided (Back between) bounds (range_length range) range }
{
    let count = range_length(range);
    let start = standing_before(range, behind_or(count, bounds.start, count));
    let stop = standing_before(range, behind_or(count, bounds.stop, 0));
    exact_range(start, stop, step_by(bounds.step, range))
}

/// The range of the integers of another that a slice picks (Library Reference, "Ranges"). Outside with
/// the cause Integer where a bound or its step would be beyond 128 bits.
pub fn picked_range(bounds: Bounds, range: Range) -> Content
    ensures { result ≡ picked_range bounds range }
{
    match stride_of(bounds.step) {
        Stride::Forward(_) => forward(bounds, range),
        Stride::Back(_) => back(bounds, range),
    }
}
