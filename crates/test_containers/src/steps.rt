ghost use Rattle.std.specs.Prelude.{IfSome, IsTrue};
ghost use Rattle.pt_dicts.specs.Combine.{is_set_operator};

use crate::no_row::NoRow;
use crate::objects::World;
use pt_base::{BinOp, Memory, ObjId, Seq};
use pt_content::{Content, MethodName, NewObject};
use pt_dicts::object_at;
use pt_heap::{Dict, Heap, Object, Value};
use std::alloc::Global;

/// Methods by their names.
const METHODS: [(&str, MethodName); 14] = [
    (".append", MethodName::Append),
    (".get", MethodName::Get),
    (".keys", MethodName::Keys),
    (".values", MethodName::Values),
    (".items", MethodName::Items),
    (".pop", MethodName::Pop),
    (".setdefault", MethodName::Setdefault),
    (".update", MethodName::Update),
    (".clear", MethodName::Clear),
    (".copy", MethodName::Copy),
    (".add", MethodName::Add),
    (".discard", MethodName::Discard),
    (".remove", MethodName::Remove),
    (".sort", MethodName::Sort),
];

/// The operator of sets that a sign is.
fn operator_of(sign: &str) -> Option<BinOp>
    ensures { IfSome result (λ op. IsTrue (is_set_operator op)) }
{
    match sign {
        "|" => Some(BinOp::BitOr),
        "&" => Some(BinOp::BitAnd),
        "-" => Some(BinOp::Sub),
        "^" => Some(BinOp::BitXor),
        _ => None,
    }
}

/// What stands behind a word in a table.
fn behind<T: Copy>(rows: &[(&str, T)], word: &str) -> Option<T> {
    for row in rows {
        if row.0 == word {
            return Some(row.1);
        }
    }
    None
}

fn method(
    alloc: Global,
    heap: &Heap,
    name: MethodName,
    id: ObjId,
    args: &[Value],
) -> Result<Content, NoRow> {
    match object_at(heap, id) {
        Some(Object::Dict(dict)) => {
            Ok(pt_mappings::dict_method_content(alloc, name, heap, id, dict, args)?)
        }
        Some(Object::Set(set)) => {
            Ok(pt_sets::set_method_content(alloc, name, heap, id, set, args)?)
        }
        _ => Err(NoRow),
    }
}

fn set_at(heap: &Heap, value: Value) -> Result<(ObjId, &Dict), NoRow> {
    match value {
        Value::Obj(id) => match object_at(heap, id) {
            Some(Object::Set(set)) => Ok((id, set)),
            _ => Err(NoRow),
        },
        _ => Err(NoRow),
    }
}

fn dict_at(heap: &Heap, value: Value) -> Result<(ObjId, &Dict), NoRow> {
    match value {
        Value::Obj(id) => match object_at(heap, id) {
            Some(Object::Dict(dict)) => Ok((id, dict)),
            _ => Err(NoRow),
        },
        _ => Err(NoRow),
    }
}

/// An operator of two sets, in place where `=` stands behind its sign.
fn combined(alloc: Global, heap: &Heap, name: &str, a: Value, b: Value) -> Result<Content, NoRow> {
    let (id, first) = set_at(heap, a)?;
    let (_, second) = set_at(heap, b)?;
    match name.strip_suffix("=") {
        Some(sign) => match operator_of(sign) {
            Some(op) => Ok(pt_sets::combined_in_place(alloc, op, id, first, second)?),
            None => Err(NoRow),
        },
        None => match operator_of(name) {
            Some(op) => Ok(pt_sets::combined_content(alloc, op, first, second)?),
            None => Err(NoRow),
        },
    }
}

fn contains(alloc: Global, heap: &Heap, sought: Value, container: Value) -> Result<Content, NoRow> {
    if let Ok((_, dict)) = dict_at(heap, container) {
        return Ok(pt_mappings::has_key_content(alloc, heap, dict, sought)?);
    }
    let (_, set) = set_at(heap, container)?;
    Ok(pt_sets::has_item_content(alloc, heap, set, sought)?)
}

fn same(heap: &Heap, a: Value, b: Value) -> Result<Content, NoRow> {
    let (_, first) = set_at(heap, a)?;
    let (_, second) = set_at(heap, b)?;
    Ok(Content::Value(Value::Bool(pt_sets::same_items(first, second))))
}

/// What makes a new object of any number of values.
fn made(
    alloc: Global,
    heap: &Heap,
    name: &str,
    values: &[Value],
) -> Result<Option<Content>, Memory> {
    match name {
        "dict" => Ok(Some(pt_mappings::dict_content(alloc, heap, values)?)),
        "set" => Ok(Some(pt_sets::set_content(alloc, heap, values)?)),
        "tuple" => {
            let items = Seq::from_slice(alloc, values)?;
            Ok(Some(Content::New(NewObject::Tuple(items))))
        }
        "list" => {
            let items = Seq::from_slice(alloc, values)?;
            Ok(Some(Content::New(NewObject::List(items))))
        }
        _ => Ok(None),
    }
}

fn subscript(
    alloc: Global,
    heap: &Heap,
    name: &str,
    dict: Value,
    args: &[Value],
) -> Result<Content, NoRow> {
    let (id, dict) = dict_at(heap, dict)?;
    match (name, args) {
        ("item", [key]) => Ok(pt_mappings::item_content(alloc, heap, dict, *key)?),
        ("put", [key, value]) => {
            Ok(pt_mappings::set_item_content(alloc, heap, id, dict, *key, *value)?)
        }
        ("del", [key]) => Ok(pt_mappings::delete_item_content(alloc, heap, id, dict, *key)?),
        _ => Err(NoRow),
    }
}

/// What a step answers.
pub fn content_of(
    alloc: Global,
    world: &World,
    name: &str,
    operands: &[Value],
) -> Result<Content, NoRow> {
    let heap = &world.heap;
    if let Some(content) = made(alloc, heap, name, operands)? {
        return Ok(content);
    }
    if let Some(name) = behind(&METHODS, name) {
        return match operands {
            [Value::Obj(id), args @ ..] => method(alloc, heap, name, *id, args),
            _ => Err(NoRow),
        };
    }
    match (name, operands) {
        ("in", [sought, container]) => contains(alloc, heap, *sought, *container),
        ("add", [set, item]) => {
            let (id, set) = set_at(heap, *set)?;
            Ok(pt_sets::add_content(alloc, heap, id, set, *item)?)
        }
        ("iter", [a]) => Ok(pt_views::iterator_content(alloc, heap, *a)?),
        ("next", [a]) => Ok(pt_views::next_content(alloc, heap, *a)?),
        ("same", [a, b]) => same(heap, *a, *b),
        ("item" | "put" | "del", [dict, args @ ..]) => subscript(alloc, heap, name, *dict, args),
        (name, [a, b]) => combined(alloc, heap, name, *a, *b),
        _ => Err(NoRow),
    }
}
