ghost use Rattle.std.specs.Prelude.{◌≡◌, ◌++◌, length, IfOk, IsTrue};
ghost use Rattle.pt_sequences.specs.Displays.{bounded, fit, list_content, repeated};
ghost use Rattle.pt_sequences.specs.Displays.{repeated_list, repeated_tuple, times, tuple_content};

use pt_base::{Memory, Seq, What};
use pt_content::{Content, NewObject};
use pt_heap::Value;
use std::alloc::Global;

/// The most entries that a container may have.
const ENTRY_LIMIT: usize = 4_194_304;

/// A new container of so many items, if that isn't too many.
fn bounded(count: usize, object: NewObject) -> Content
    ensures { result ≡ bounded count object }
{
    if count <= ENTRY_LIMIT {
        return Content::New(object);
    }
    Content::Outside(What::Length)
}

/// A list of values (Language Reference 6.2.5). Outside with the cause Length for more than
/// 4,194,304.
pub fn list_content(items: Seq<Value>) -> Content
    ensures { result ≡ list_content items }
{
    bounded(items.len(), NewObject::List(items))
}

/// A tuple of values (Language Reference 6.15). Outside with the cause Length for more than
/// 4,194,304.
pub fn tuple_content(items: Seq<Value>) -> Content
    ensures { result ≡ tuple_content items }
{
    bounded(items.len(), NewObject::Tuple(items))
}

/// How many times, none for a number below 0.
fn times(number: i128) -> u128
    ensures { result ≡ times number }
{
    if number < 0 {
        return 0;
    }
    number.unsigned_abs()
}

/// Whether so many times these values aren't too many.
fn fit(number: i128, items: &[Value]) -> bool
    ensures { result ≡ fit number items.now }
{
    times(number).saturating_mul(items.len() as u128) <= ENTRY_LIMIT as u128
}

/// Values so many times.
#[tactic(auto, using(crate::proofs::UnpackLemmas::repeated_more))]
fn repeated(alloc: Global, count: usize, items: &[Value]) -> Result<Seq<Value>, Memory>
    ensures { IfOk result (λ r. r ≡ repeated count items.now) }
{
    let mut all = Vec::new(alloc);
    for _turn in 0..count {
        all.extend_from_slice(items)?;
    }
    Ok(Seq::from_vec(all))
}

/// Values so many times, where they fit.
#[tactic(auto, using(crate::proofs::UnpackLemmas::repeated_none, crate::proofs::UnpackLemmas::times_least))]
fn copies(alloc: Global, number: i128, items: &[Value]) -> Result<Seq<Value>, Memory>
    requires { IsTrue (fit number items.now) }
    ensures { IfOk result (λ r. r ≡ repeated (times number) items.now) }
{
    if items.is_empty() {
        return Ok(Seq::new(alloc));
    }
    repeated(alloc, times(number) as usize, items)
}

/// A list so many times (Library Reference, "Common Sequence Operations"). Outside with the cause
/// Length for more than 4,194,304 items.
pub fn repeated_list(alloc: Global, number: i128, items: &[Value]) -> Result<Content, Memory>
    ensures { IfOk result (λ content. content ≡ repeated_list number items.now) }
{
    if !fit(number, items) {
        return Ok(Content::Outside(What::Length));
    }
    Ok(Content::New(NewObject::List(copies(alloc, number, items)?)))
}

/// A tuple so many times. Outside with the cause Length for more than 4,194,304 items.
pub fn repeated_tuple(alloc: Global, number: i128, items: &[Value]) -> Result<Content, Memory>
    ensures { IfOk result (λ content. content ≡ repeated_tuple number items.now) }
{
    if !fit(number, items) {
        return Ok(Content::Outside(What::Length));
    }
    Ok(Content::New(NewObject::Tuple(copies(alloc, number, items)?)))
}
