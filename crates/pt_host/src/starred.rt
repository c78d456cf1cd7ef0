//! What `*NAME` and `**NAME` are given in a call (Language Reference 8.7).
ghost use Rattle.std.specs.Prelude.{◌≡◌, [], length, nat_eq, IfOk};
ghost use Rattle.sem_run.specs.run.Host.{made};
ghost use Rattle.pt_heap.specs.Limits.{entry_limit};
ghost use Rattle.pt_host.specs.World.{allot};
ghost use Rattle.pt_host.specs.Starred.{behind, dict_behind, entered, entries_from, given, unless};
ghost use Rattle.pt_host.specs.Starred.{values_given, with_star, with_stars};

use crate::errors::allot;
use pt_base::{Dup, Memory, Seq, What};
use pt_bind::{Locals, Params};
use pt_dicts::name_key;
use pt_heap::{Binding, Dict, DictErr, Heap, Object, Str, Value};
use std::alloc::Global;

/// The most entries that a dictionary may have.
const ENTRY_LIMIT: u32 = 4_194_304;

/// Puts an object behind the others, and its value behind other values, or answers why it isn't
/// there.
#[tactic(auto, using(crate::proofs::StarredLemmas::put_behind, crate::proofs::StarredLemmas::none_behind))]
fn put_behind(
    values: &mut Seq<Option<Value>>,
    object: Object,
    heap: &mut Heap,
) -> Result<Option<What>, Memory>
    ensures { IfOk result (λ refused. unless refused values.new heap.new
        ≡ behind values.old (allot object heap.old)) }
{
    match allot(heap, object)? {
        Some(value) => {
            values.push(Some(value))?;
            Ok(None)
        }
        None => Ok(Some(What::Heap)),
    }
}

/// Whether a dictionary has as many entries as one may have.
fn is_full(dict: &Dict) -> bool
    ensures { result ≡ nat_eq (length dict.now) entry_limit }
{
    dict.len() == ENTRY_LIMIT
}

/// Gives the text of a name the value of its argument, or answers why it doesn't.
#[tactic(auto, using(crate::proofs::StarredLemmas::entry_put, crate::proofs::StarredLemmas::no_entry, crate::proofs::StarredLemmas::dict_full, crate::proofs::StarredLemmas::no_text))]
fn enter(
    alloc: Global,
    binding: &Binding,
    dict: &mut Dict,
    heap: &mut Heap,
) -> Result<Option<What>, Memory>
    ensures { IfOk result (λ refused. unless refused dict.new heap.new
        ≡ entered binding.now dict.old (allot (Object.Str binding.now.name) heap.old)) }
{
    let name = binding.name.dup(alloc)?;
    let Some(text) = allot(heap, Object::Str(Str::new(name)))? else {
        return Ok(Some(What::Heap));
    };
    if is_full(dict) {
        return Ok(Some(What::Length));
    }
    let key = name_key(alloc, binding.name.as_str())?;
    match dict.insert(key, text, binding.value) {
        Ok(_) => Ok(None),
        Err(DictErr::Length) => Ok(Some(What::Length)),
        Err(DictErr::Memory) => Err(Memory),
    }
}

/// Gives the texts of names the values of their arguments, or answers why it doesn't.
#[tactic(auto, using(crate::proofs::StarredLemmas::entries_next, crate::proofs::StarredLemmas::entries_refused, crate::proofs::StarredLemmas::entries_end))]
fn enter_all(
    alloc: Global,
    named: &[Binding],
    dict: &mut Dict,
    heap: &mut Heap,
) -> Result<Option<What>, Memory>
    ensures { IfOk result (λ refused. unless refused dict.new heap.new
        ≡ entries_from (made dict.old heap.old) named.now) }
{
    for binding in named {
        if let Some(what) = enter(alloc, binding, dict, heap)? {
            return Ok(Some(what));
        }
    }
    Ok(None)
}

/// Puts a dictionary of named arguments behind other values, or answers why it isn't there.
#[tactic(auto, using(crate::proofs::StarredLemmas::dict_put, crate::proofs::StarredLemmas::no_dict))]
fn put_dict(
    alloc: Global,
    named: &[Binding],
    values: &mut Seq<Option<Value>>,
    heap: &mut Heap,
) -> Result<Option<What>, Memory>
    ensures { IfOk result (λ refused. unless refused values.new heap.new
        ≡ dict_behind values.old (entries_from (made [] heap.old) named.now)) }
{
    let mut dict = Dict::new(alloc, heap.seed());
    match enter_all(alloc, named, &mut dict, heap)? {
        None => put_behind(values, Object::Dict(dict), heap),
        Some(what) => Ok(Some(what)),
    }
}

/// Values, and behind them a tuple of items for `*NAME`, if that is there.
#[tactic(auto, using(crate::proofs::StarredLemmas::star_given, crate::proofs::StarredLemmas::star_refused, crate::proofs::StarredLemmas::no_star))]
fn star_given(
    is_there: bool,
    items: Seq<Value>,
    values: Seq<Option<Value>>,
    heap: &mut Heap,
) -> Result<Result<Seq<Option<Value>>, What>, Memory>
    ensures { IfOk result (λ all. given all heap.new ≡ with_star is_there items values heap.old) }
{
    let mut values = values;
    if !is_there {
        return Ok(Ok(values));
    }
    match put_behind(&mut values, Object::Tuple(items), heap)? {
        None => Ok(Ok(values)),
        Some(what) => Ok(Err(what)),
    }
}

/// Values, and behind them a dictionary of named arguments for `**NAME`, if that is there.
#[tactic(auto, using(crate::proofs::StarredLemmas::stars_given, crate::proofs::StarredLemmas::stars_refused, crate::proofs::StarredLemmas::no_stars))]
fn stars_given(
    alloc: Global,
    is_there: bool,
    named: &[Binding],
    values: Seq<Option<Value>>,
    heap: &mut Heap,
) -> Result<Result<Seq<Option<Value>>, What>, Memory>
    ensures { IfOk result (λ all. given all heap.new
        ≡ with_stars is_there named.now (made values heap.old)) }
{
    let mut values = values;
    if !is_there {
        return Ok(Ok(values));
    }
    match put_dict(alloc, named, &mut values, heap)? {
        None => Ok(Ok(values)),
        Some(what) => Ok(Err(what)),
    }
}

/// The values of all parameters, with a new tuple for `*NAME` and a new dictionary for `**NAME`, or
/// why there are none. After Memory the heap may have new objects.
#[tactic(auto, using(crate::proofs::StarredLemmas::all_given, crate::proofs::StarredLemmas::all_refused))]
pub fn values_given(
    alloc: Global,
    params: &Params,
    bound: Locals,
    heap: &mut Heap,
) -> Result<Result<Seq<Option<Value>>, What>, Memory>
    ensures { IfOk result (λ values. given values heap.new
        ≡ values_given params.now bound heap.old) }
{
    let Locals {
        values,
        star,
        stars,
        cells: _,
    } = bound;
    match star_given(params.star, star, values, heap)? {
        Ok(values) => stars_given(alloc, params.stars, stars.as_slice(), values, heap),
        Err(what) => Ok(Err(what)),
    }
}
