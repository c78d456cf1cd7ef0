ghost use Rattle.std.specs.Prelude.{◌≡◌, ◌+◌, slice_get};
ghost use Rattle.std.specs.Option.{option_copied};
ghost use Rattle.pt_dicts.specs.Chain.{class_in, class_value};

use pt_base::ObjId;
use pt_heap::{Class, Heap, Key, Object, Value};

/// The object at a place, if there is one.
pub fn object_at(heap: &Heap, id: ObjId) -> Option<&Object>
    ensures { option_copied result ≡ slice_get heap.now id.0 }
{
    if id.0 < heap.len() {
        return Some(heap.get(id));
    }
    None
}

/// The class at a place, if one stands there.
pub fn class_at(heap: &Heap, id: ObjId) -> Option<&Class>
    ensures { option_copied result ≡ class_in (slice_get heap.now id.0) }
{
    match object_at(heap, id) {
        Some(Object::Class(class)) => Some(class),
        _ => None,
    }
}

/// The value that a class or the nearest of its bases has under a key (Language Reference 3.3.1).
pub fn class_value(heap: &Heap, key: &Key, class: ObjId) -> Option<Value>
    ensures { result ≡ class_value heap.now key.now class }
{
    let mut at = class;
    for _step in 0..class.0 as u64 + 1 {
        let Some(class) = class_at(heap, at) else {
            return None;
        };
        if let Some(value) = class.names.get(key) {
            return Some(value);
        }
        let Some(base) = class.base else {
            return None;
        };
        at = base;
    }
    None
}
