ghost use Rattle.std.specs.Prelude.{◌≡◌, IfOk};
ghost use Rattle.pt_mappings.specs.Keyed.{changed, contains_by, key_in, missing, or_missing};
ghost use Rattle.pt_mappings.specs.Keyed.{unhashable};

use pt_base::{Memory, ObjId, Seq, What};
use pt_content::{
    Change, Content, Mutable, PrimAns, RECURSION_ERROR, Replacement, TYPE_ERROR, name_at, raise,
    sentence,
};
use pt_dicts::{KeyErr, key_of};
use pt_heap::{Dict, Heap, Key, Value};
use std::alloc::Global;

/// The place of the class of exceptions that a missing key raises.
pub const KEY_ERROR: ObjId = ObjId(38);

/// A value as a key.
#[derive(Drop)]
pub enum Keyed {
    Key(Key),
    /// It is none, and this is answered.
    Refused(Content),
}

fn unhashable(alloc: Global, heap: &Heap, class: ObjId) -> Result<Content, Memory>
    ensures { IfOk result (λ content. content ≡ unhashable heap.now class) }
{
    let text = sentence(alloc, &["unhashable type: '", name_at(heap, class), "'"])?;
    Ok(Content::Raise {
        class: TYPE_ERROR,
        text,
    })
}

/// A value as a key of a dictionary or set (Language Reference 3.3.1, `object.__hash__`). A
/// TypeError for one that has no hash, and a RecursionError for more than 1,000 tuples inside one
/// another. Outside with the cause Hash where a `__hash__` of a script is needed.
pub fn key_in(alloc: Global, heap: &Heap, value: Value) -> Result<Keyed, Memory>
    ensures { IfOk result (λ key. key ≡ key_in heap.now value) }
{
    match key_of(alloc, heap, value) {
        Ok(key) => Ok(Keyed::Key(key)),
        Err(KeyErr::Unhashable { class }) => Ok(Keyed::Refused(unhashable(alloc, heap, class)?)),
        Err(KeyErr::UserHash { .. }) => Ok(Keyed::Refused(Content::Outside(What::Hash))),
        Err(KeyErr::Deep) => {
            let deep = raise(alloc, RECURSION_ERROR, "too many activations")?;
            Ok(Keyed::Refused(deep))
        }
        Err(KeyErr::Memory) => Err(Memory),
    }
}

/// An object holds something else from now on, and this is answered.
pub fn changed(alloc: Global, id: ObjId, object: Mutable, answer: PrimAns) -> Content
    ensures { result ≡ changed id object answer }
{
    Content::Changed {
        change: Change {
            replacement: Some(Replacement { id, object }),
            objects: Seq::new(alloc),
        },
        answer,
    }
}

/// A KeyError, whose argument is the key.
pub fn missing(alloc: Global, key: Value) -> Content
    ensures { result ≡ missing key }
{
    Content::Changed {
        change: Change {
            replacement: None,
            objects: Seq::new(alloc),
        },
        answer: PrimAns::Raise {
            class: KEY_ERROR,
            arg: Some(key),
        },
    }
}

/// The value behind a key, or a KeyError.
pub fn or_missing(alloc: Global, key: Value, value: Option<Value>) -> Content
    ensures { result ≡ or_missing key value }
{
    match value {
        Some(value) => Content::Value(value),
        None => missing(alloc, key),
    }
}

/// Whether a key is there.
pub fn contains_by(entries: &Dict, key: Keyed) -> Content
    ensures { result ≡ contains_by entries.now key }
{
    match key {
        Keyed::Refused(content) => content,
        Keyed::Key(key) => Content::Value(Value::Bool(entries.get(&key).is_some())),
    }
}
