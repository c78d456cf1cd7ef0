//! Arguments by the roles that their texts name (Language Reference 6.3.4).
ghost use Rattle.std.specs.Prelude.{◌≡◌, ◌++◌, map, IfOk, OnOk};
ghost use Rattle.pt_call_rows.specs.Roles.{as_role};
ghost use Rattle.pt_content.specs.pt_attrs.Look.{object_of};
ghost use Rattle.pt_content.specs.Operands.{text_of};
ghost use Rattle.pt_block_calls.specs.pt_operators.pt_moves.sem_rows.pt_host.Arguments.{are_arguments, arguments, entry_argument};
ghost use Rattle.pt_block_calls.specs.pt_operators.pt_moves.sem_rows.pt_host.Arguments.{is_argument, is_named_dict, is_tuple};
ghost use Rattle.pt_block_calls.specs.pt_operators.pt_moves.sem_rows.pt_host.Arguments.{items_in, named_argument, named_arguments};
ghost use Rattle.pt_block_calls.specs.pt_operators.pt_moves.sem_rows.pt_host.Arguments.{named_in, plain_argument, plain_arguments, text_or_none};
ghost use Rattle.sem_code.specs.slots.Instructions.{role_of};

use pt_base::{Dup, Memory, Seq, Text};
use pt_bind::Args;
use pt_block_calls::{append, are_named};
use pt_content::{object_of, text_of};
use pt_heap::{Binding, Dict, Heap, Object, Value};
use std::alloc::Global;

/// How an argument is given.
#[derive(Clone, Copy, Debug)]
pub enum Role {
    Positional,
    Spread,
    SpreadNamed,
    Named,
}

/// The role of an argument by its text.
#[tactic(auto, using(crate::proofs::RoleLemmas::no_text, crate::proofs::RoleLemmas::one_star, crate::proofs::RoleLemmas::two_stars, crate::proofs::RoleLemmas::a_name))]
fn role_of(text: &Text) -> Role
    ensures { as_role result text.now ≡ role_of text.now }
{
    if text.is_empty() {
        return Role::Positional;
    }
    if text.is("*") {
        return Role::Spread;
    }
    if text.is("**") {
        return Role::SpreadNamed;
    }
    Role::Named
}

fn is_tuple(heap: &Heap, value: Value) -> bool
    ensures { result ≡ is_tuple (object_of heap.now value) }
{
    match object_of(heap, value) {
        Some(Object::Tuple(_)) => true,
        _ => false,
    }
}

/// Whether it is a dictionary whose keys are texts.
fn is_named_dict(heap: &Heap, value: Value) -> bool
    ensures { result ≡ is_named_dict heap.now (object_of heap.now value) }
{
    match object_of(heap, value) {
        Some(Object::Dict(dict)) => are_named(heap, dict),
        _ => false,
    }
}

/// Whether an argument of this text that is spread is what `*e` or `**e` gives.
#[tactic(auto, using(crate::proofs::RoleLemmas::is_any, crate::proofs::RoleLemmas::is_spread, crate::proofs::RoleLemmas::is_spread_named, crate::proofs::RoleLemmas::is_called_so))]
fn is_argument(heap: &Heap, text: &Text, value: Value) -> bool
    ensures { result ≡ is_argument heap.now (role_of text.now) value }
{
    match role_of(text) {
        Role::Positional => true,
        Role::Spread => is_tuple(heap, value),
        Role::SpreadNamed => is_named_dict(heap, value),
        Role::Named => true,
    }
}

/// Whether all arguments that are spread are what `*e` and `**e` give.
#[tactic(auto, using(crate::proofs::RoleLemmas::one_is_not, crate::proofs::RoleLemmas::next_are, crate::proofs::RoleLemmas::all_values_are, crate::proofs::RoleLemmas::all_texts_are))]
pub fn are_arguments(heap: &Heap, names: &[Text], values: &[Value]) -> bool
    ensures { result ≡ are_arguments heap.now (map role_of names.now) values.now }
{
    for at in 0..names.len() {
        if at >= values.len() {
            return true;
        }
        if !is_argument(heap, &names[at], values[at]) {
            return false;
        }
    }
    true
}

/// The items of a tuple.
fn items_in(heap: &Heap, value: Value) -> &[Value]
    ensures { result.now ≡ items_in (object_of heap.now value) }
{
    match object_of(heap, value) {
        Some(Object::Tuple(items)) => items.as_slice(),
        _ => &[],
    }
}

/// The text that a value is.
fn text_or_none(alloc: Global, heap: &Heap, value: Value) -> Result<Text, Memory>
    ensures { IfOk result (λ text. text ≡ text_or_none (text_of heap.now value)) }
{
    match text_of(heap, value) {
        Some(text) => text.text().dup(alloc),
        None => Ok(Text::new(alloc)),
    }
}

/// Puts the entries of a dictionary behind the arguments with names.
#[tactic(auto, using(crate::proofs::RoleLemmas::entry_next, crate::proofs::RoleLemmas::no_more))]
fn push_entries(
    alloc: Global,
    heap: &Heap,
    dict: &Dict,
    named: &mut Seq<Binding>,
) -> Result<(), Memory>
    ensures { OnOk result (named.new ≡ named.old ++ map (entry_argument heap.now) dict.now) }
{
    let mut entries = dict.entries();
    while let Some(entry) = entries.next() {
        let name = text_or_none(alloc, heap, entry.first)?;
        let value = entry.value;
        named.push(Binding { name, value })?;
    }
    Ok(())
}

/// Puts the entries of a dictionary that is spread behind the arguments with names.
#[tactic(auto, using(crate::proofs::RoleLemmas::no_more))]
fn push_named(
    alloc: Global,
    heap: &Heap,
    value: Value,
    named: &mut Seq<Binding>,
) -> Result<(), Memory>
    ensures { OnOk result (named.new ≡ named.old ++ named_in heap.now (object_of heap.now value)) }
{
    match object_of(heap, value) {
        Some(Object::Dict(dict)) => push_entries(alloc, heap, dict, named),
        _ => Ok(()),
    }
}

/// Puts what an argument stands for behind those without names, or behind those with names.
#[tactic(auto, using(crate::proofs::RoleLemmas::plain_pushed, crate::proofs::RoleLemmas::plain_spread, crate::proofs::RoleLemmas::plain_kept, crate::proofs::RoleLemmas::plain_unnamed, crate::proofs::RoleLemmas::named_kept, crate::proofs::RoleLemmas::named_unspread, crate::proofs::RoleLemmas::named_spread, crate::proofs::RoleLemmas::named_pushed))]
fn push_argument(
    alloc: Global,
    heap: &Heap,
    text: &Text,
    value: Value,
    plain: &mut Seq<Value>,
    named: &mut Seq<Binding>,
) -> Result<(), Memory>
    ensures plain { OnOk result
        (plain.new ≡ plain.old ++ plain_argument heap.now (role_of text.now) value) }
    ensures named { OnOk result
        (named.new ≡ named.old ++ named_argument heap.now (role_of text.now) value) }
{
    match role_of(text) {
        Role::Positional => plain.push(value),
        Role::Spread => append(plain, items_in(heap, value)),
        Role::SpreadNamed => push_named(alloc, heap, value, named),
        Role::Named => {
            let name = text.dup(alloc)?;
            named.push(Binding { name, value })
        }
    }
}

/// The arguments of a call: what is spread stands for its items and its entries.
#[tactic(auto, using(crate::proofs::RoleLemmas::plain_next, crate::proofs::RoleLemmas::named_next, crate::proofs::RoleLemmas::values_end, crate::proofs::RoleLemmas::roles_end))]
pub fn arguments(
    alloc: Global,
    heap: &Heap,
    names: &[Text],
    values: &[Value],
) -> Result<Args, Memory>
    ensures { IfOk result
        (λ args. args ≡ arguments heap.now (map role_of names.now) values.now) }
{
    let mut plain = Seq::new(alloc);
    let mut named = Seq::new(alloc);
    for at in 0..names.len() {
        if at >= values.len() {
            return Ok(Args { plain, named });
        }
        push_argument(alloc, heap, &names[at], values[at], &mut plain, &mut named)?;
    }
    Ok(Args { plain, named })
}
