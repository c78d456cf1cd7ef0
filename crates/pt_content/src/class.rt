ghost use Rattle.std.specs.Prelude.{◌≡◌, slice_get};
ghost use Rattle.pt_content.specs.Classes.{class_name, function_class, name_at, object_class, view_name};

use pt_attrs::{class_at, object_at};
use pt_base::ObjId;
use pt_heap::{Heap, Object, Part, Value};

/// The places of the classes of exceptions that operations raise.
pub const ZERO_DIVISION_ERROR: ObjId = ObjId(31);

pub const INDEX_ERROR: ObjId = ObjId(37);

pub const RECURSION_ERROR: ObjId = ObjId(43);

pub const TYPE_ERROR: ObjId = ObjId(45);

pub const VALUE_ERROR: ObjId = ObjId(46);

/// The name of the class that stands at a place, the empty text where none does.
pub fn name_at(heap: &Heap, class: ObjId) -> &str
    ensures { result.now ≡ name_at heap.now class }
{
    match class_at(heap, class) {
        Some(class) => class.name.as_str(),
        None => "",
    }
}

fn view_name(part: Part) -> &'static str
    ensures { result.now ≡ view_name part }
{
    match part {
        Part::Keys => "dict_keys",
        Part::Values => "dict_values",
        Part::Items => "dict_items",
    }
}

/// The name of the class of a function. One that is written in Python is a builtin one.
fn function_class(hidden: bool) -> &'static str
    ensures { result.now ≡ function_class hidden }
{
    if hidden {
        "builtin_function_or_method"
    } else {
        "function"
    }
}

pub fn object_class(heap: &Heap, id: ObjId) -> &str
    ensures { result.now ≡ object_class heap.now (slice_get heap.now id.0) }
{
    match object_at(heap, id) {
        Some(Object::Str(_)) => "str",
        Some(Object::List(_)) => "list",
        Some(Object::Tuple(_)) => "tuple",
        Some(Object::Dict(_)) => "dict",
        Some(Object::Set(_)) => "set",
        Some(Object::Range(_)) => "range",
        Some(Object::Slice(_)) => "slice",
        Some(Object::Cursor(_)) => "iterator",
        Some(Object::View(view)) => view_name(view.part),
        Some(Object::Function(function)) => function_class(function.hidden),
        Some(Object::Method(_)) => "method",
        Some(Object::Builtin(_)) => "builtin_function_or_method",
        Some(Object::Class(_)) => "type",
        Some(Object::Instance(x)) => name_at(heap, x.class),
        Some(Object::Error(x)) => name_at(heap, x.class),
        Some(Object::Generator(_)) => "generator",
        Some(Object::Frame(_)) => "frame",
        Some(Object::CodeRef { .. }) => "code",
        Some(Object::Module(_)) => "module",
        Some(Object::Super(_)) => "super",
        None => "",
    }
}

/// The name of a value's class.
pub fn class_name(heap: &Heap, value: Value) -> &str
    ensures { result.now ≡ class_name heap.now value }
{
    match value {
        Value::None => "NoneType",
        Value::Bool(_) => "bool",
        Value::Int(_) => "int",
        Value::Ellipsis => "ellipsis",
        Value::NotImplemented => "NotImplementedType",
        Value::Obj(id) => object_class(heap, id),
    }
}
