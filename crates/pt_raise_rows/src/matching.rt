//! Which exceptions handlers take (Language Reference 8.4.1).
ghost use Rattle.std.specs.Prelude.{◌≡◌, slice_get};
ghost use Rattle.std.specs.List.{list_all, list_any};
ghost use Rattle.std.specs.Option.{option_copied};
ghost use Rattle.pt_moves.specs.sem_rows.pt_host.Leaving.{error_at};
ghost use Rattle.pt_moves.specs.sem_rows.pt_host.Raising.{is_exception_class, is_of_class};
ghost use Rattle.pt_heap.specs.declared.value.Value.TheVariants as Value;
ghost use Rattle.pt_raise_rows.specs.Matched.{found_by, takes};

use pt_base::ObjId;
use pt_content::{class_at, object_at};
use pt_heap::{Error, Heap, Object, Value};
use pt_moves::{BASE_EXCEPTION, derives};

/// The exception that a value is, if it is one.
fn error_at(heap: &Heap, value: Value) -> Option<&Error>
    ensures { option_copied result ≡ error_at heap.now value }
{
    match value {
        Value::Obj(id) => match object_at(heap, id) {
            Some(Object::Error(error)) => Some(error),
            _ => None,
        },
        _ => None,
    }
}

fn is_exception_class(heap: &Heap, value: Value) -> bool
    ensures { result ≡ is_exception_class heap.now value }
{
    match value {
        Value::Obj(id) => match class_at(heap, id) {
            Some(_) => derives(heap, BASE_EXCEPTION, id),
            None => false,
        },
        _ => false,
    }
}

fn are_exception_classes(heap: &Heap, values: &[Value]) -> bool
    ensures { result ≡ list_all (is_exception_class heap.now) values.now }
{
    for value in values {
        if !is_exception_class(heap, *value) {
            return false;
        }
    }
    true
}

fn is_of_class(heap: &Heap, error: Option<&Error>, class: Value) -> bool
    ensures { result ≡ is_of_class heap.now (option_copied error.entry) class }
{
    match (error, class) {
        (Some(error), Value::Obj(id)) => derives(heap, id, error.class),
        _ => false,
    }
}

fn is_of_any(heap: &Heap, exception: Value, classes: &[Value]) -> bool
    ensures { result
        ≡ list_any (is_of_class heap.now (error_at heap.now exception)) classes.now }
{
    for class in classes {
        if is_of_class(heap, error_at(heap, exception), *class) {
            return true;
        }
    }
    false
}

/// Whether an exception is of one of some classes; None where one of these is no class of
/// exceptions.
fn found_by(heap: &Heap, exception: Value, classes: &[Value]) -> Option<bool>
    ensures { result ≡ found_by heap.now exception classes.now }
{
    if !are_exception_classes(heap, classes) {
        return None;
    }
    Some(is_of_any(heap, exception, classes))
}

fn found_by_object(heap: &Heap, exception: Value, id: ObjId) -> Option<bool>
    ensures { result ≡ takes heap.now exception (Value.Obj id) }
{
    match object_at(heap, id) {
        Some(Object::Tuple(classes)) => found_by(heap, exception, classes.as_slice()),
        _ => found_by(heap, exception, &[Value::Obj(id)]),
    }
}

/// Whether a handler takes an exception, by the class or the tuple of classes that it names, or
/// None where it names none and takes each. None is answered where it names anything else.
pub fn takes(heap: &Heap, exception: Value, class: Value) -> Option<bool>
    ensures { result ≡ takes heap.now exception class }
{
    match class {
        Value::None => Some(true),
        Value::Obj(id) => found_by_object(heap, exception, id),
        _ => None,
    }
}
