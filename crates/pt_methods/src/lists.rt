//! Calls of methods of lists and tuples.

ghost use Rattle.std.specs.Prelude.{◌≡◌, IfOk};
ghost use Rattle.pt_methods.specs.Lists.{list_method, list_method_of_none, list_method_of_one};
ghost use Rattle.pt_methods.specs.Lists.{list_method_of_two, tuple_method};

use crate::search::{count_content, index_content, remove_content};
use pt_base::{Memory, What};
use pt_comparisons::asked;
use pt_content::{Content, Helper, MethodName};
use pt_heap::{Heap, Value};
use pt_list_changes::{
    append_content, clear_content, copy_content, extend_content, insert_content, pop_content,
    pop_last_content, reverse_content,
};
use std::alloc::Global;

fn list_method_of_none(
    alloc: Global,
    method: MethodName,
    list: Value,
    items: &[Value],
) -> Result<Content, Memory>
    ensures { IfOk result (λ content. content ≡ list_method_of_none method list items.now) }
{
    match method {
        MethodName::Pop => pop_last_content(alloc, list, items),
        MethodName::Reverse => reverse_content(alloc, list, items),
        MethodName::Clear => Ok(clear_content(alloc, list)),
        MethodName::Copy => copy_content(alloc, items),
        _ => Ok(Content::Outside(What::Feature)),
    }
}

fn list_method_of_one(
    alloc: Global,
    method: MethodName,
    heap: &Heap,
    list: Value,
    items: &[Value],
    arg: Value,
) -> Result<Content, Memory>
    ensures { IfOk result (λ content.
        content ≡ list_method_of_one method heap.now list items.now arg) }
{
    match method {
        MethodName::Append => append_content(alloc, list, items, arg),
        MethodName::Extend => extend_content(alloc, heap, list, items, arg),
        MethodName::Pop => pop_content(alloc, heap, list, items, arg),
        MethodName::Remove => remove_content(alloc, heap, list, items, arg),
        MethodName::Index => index_content(alloc, heap, list, items, arg),
        MethodName::Count => count_content(alloc, heap, list, items, arg),
        _ => Ok(Content::Outside(What::Feature)),
    }
}

/// A helper is asked to sort.
fn list_method_of_two(
    alloc: Global,
    method: MethodName,
    heap: &Heap,
    list: Value,
    items: &[Value],
    first: Value,
    second: Value,
) -> Result<Content, Memory>
    ensures { IfOk result (λ content.
        content ≡ list_method_of_two method heap.now list items.now first second) }
{
    match method {
        MethodName::Insert => insert_content(alloc, heap, list, items, first, second),
        MethodName::Sort => Ok(asked(Helper::SortOf)),
        _ => Ok(Content::Outside(What::Feature)),
    }
}

/// What a method of a list gives, by the number of arguments; of `sort` these are the values of
/// `key` and `reverse`.
pub fn list_method(
    alloc: Global,
    method: MethodName,
    heap: &Heap,
    list: Value,
    items: &[Value],
    args: &[Value],
) -> Result<Content, Memory>
    ensures { IfOk result (λ content.
        content ≡ list_method method heap.now list items.now args.now) }
{
    match args {
        [] => list_method_of_none(alloc, method, list, items),
        [arg] => list_method_of_one(alloc, method, heap, list, items, *arg),
        [first, second] => { list_method_of_two(alloc, method, heap, list, items, *first, *second) }
        _ => Ok(Content::Outside(What::Feature)),
    }
}

/// What a method of a tuple gives.
pub fn tuple_method(
    alloc: Global,
    method: MethodName,
    heap: &Heap,
    tuple: Value,
    items: &[Value],
    args: &[Value],
) -> Result<Content, Memory>
    ensures { IfOk result (λ content.
        content ≡ tuple_method method heap.now tuple items.now args.now) }
{
    match (method, args) {
        (MethodName::Index, [sought]) => index_content(alloc, heap, tuple, items, *sought),
        (MethodName::Count, [sought]) => count_content(alloc, heap, tuple, items, *sought),
        _ => Ok(Content::Outside(What::Feature)),
    }
}
