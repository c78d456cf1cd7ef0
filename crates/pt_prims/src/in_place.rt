ghost use Rattle.std.specs.Prelude.{◌≡◌, IfOk};
ghost use Rattle.pt_content.specs.pt_attrs.Look.{object_of};
ghost use Rattle.pt_content.specs.Operands.{operand_of};
ghost use Rattle.pt_prims.specs.InPlace.{extended, in_place, in_place_content, list_repeated, set_changed};

use crate::arithmetic::binary_content;
use crate::sequences::concatenation;
use pt_base::{BinOp, Memory, Seq};
use pt_content::{
    Change, Content, Helper, Mutable, NewObject, Operand, PrimAns, Replacement, object_of,
    operand_of,
};
use pt_heap::{Dict, Heap, Object, Value};
use pt_methods::{asked_or, combined_in_place, list_content, repeated_list};
use std::alloc::Global;

/// A list takes the items of one that would be new.
fn in_place(alloc: Global, list: Value, content: Content) -> Content
    ensures { result ≡ in_place list content }
{
    match (list, content) {
        (Value::Obj(id), Content::New(NewObject::List(items))) => Content::Changed {
            change: Change {
                replacement: Some(Replacement {
                    id,
                    object: Mutable::List(items),
                }),
                objects: Seq::new(alloc),
            },
            answer: PrimAns::Value(list),
        },
        (_, content) => content,
    }
}

/// `+=` of a list, of the items of another value.
fn extended(
    alloc: Global,
    heap: &Heap,
    list: Value,
    items: &[Value],
    other: Value,
) -> Result<Content, Memory>
    ensures { IfOk result (λ content. content
        ≡ extended heap.now list items.now other (object_of heap.now other)) }
{
    match object_of(heap, other) {
        Some(Object::List(more)) => {
            let items = concatenation(alloc, items, more.as_slice())?;
            Ok(in_place(alloc, list, list_content(items)))
        }
        Some(Object::Tuple(more)) => {
            let items = concatenation(alloc, items, more.as_slice())?;
            Ok(in_place(alloc, list, list_content(items)))
        }
        Some(
            Object::Str(_)
            | Object::Range(_)
            | Object::Cursor(_)
            | Object::Dict(_)
            | Object::Set(_)
            | Object::View(_)
            | Object::Generator(_),
        ) => Ok(Content::Help {
            helper: Helper::ExtendOf,
            inverted: false,
        }),
        _ => asked_or(alloc, Helper::ExtendOf, "iterable", heap, other),
    }
}

/// `*=` of a list.
fn list_repeated(
    alloc: Global,
    heap: &Heap,
    list: Value,
    items: &[Value],
    other: Value,
) -> Result<Content, Memory>
    ensures { IfOk result (λ content. content
        ≡ list_repeated heap.now list items.now other (operand_of heap.now other)) }
{
    match operand_of(heap, other) {
        Operand::Number(number) => {
            let content = repeated_list(alloc, number, items)?;
            Ok(in_place(alloc, list, content))
        }
        _ => binary_content(alloc, BinOp::Mul, heap, list, other),
    }
}

/// `|=`, `&=`, `-=` or `^=` of a set.
fn set_changed(
    alloc: Global,
    op: BinOp,
    heap: &Heap,
    a: Value,
    b: Value,
    set: &Dict,
) -> Result<Content, Memory>
    ensures { IfOk result (λ content. content
        ≡ set_changed op heap.now a b set.now (object_of heap.now b)) }
{
    match (a, object_of(heap, b)) {
        (Value::Obj(id), Some(Object::Set(other))) => match op {
            BinOp::BitOr | BinOp::BitAnd | BinOp::Sub | BinOp::BitXor => {
                combined_in_place(alloc, op, id, set, other)
            }
            _ => binary_content(alloc, op, heap, a, b),
        },
        _ => binary_content(alloc, op, heap, a, b),
    }
}

/// `a OP= b` (Language Reference 7.2.1). A list or a set changes in place.
pub fn in_place_content(
    alloc: Global,
    op: BinOp,
    heap: &Heap,
    a: Value,
    b: Value,
) -> Result<Content, Memory>
    ensures { IfOk result (λ content. content ≡ in_place_content op heap.now a b) }
{
    match (op, object_of(heap, a)) {
        (BinOp::Add, Some(Object::List(items))) => extended(alloc, heap, a, items.as_slice(), b),
        (BinOp::Mul, Some(Object::List(items))) => {
            list_repeated(alloc, heap, a, items.as_slice(), b)
        }
        (_, Some(Object::Set(set))) => set_changed(alloc, op, heap, a, b, set),
        _ => binary_content(alloc, op, heap, a, b),
    }
}
