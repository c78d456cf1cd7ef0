ghost use Rattle.std.specs.Prelude.{◌≡◌};
ghost use Rattle.pt_list_changes.specs.Changed.{list_changed, list_grown};

use pt_base::{Seq, What};
use pt_content::{Change, Content, Mutable, PrimAns, Replacement};
use pt_heap::Value;
use std::alloc::Global;

/// The most entries that a container may have.
const ENTRY_LIMIT: usize = 4_194_304;

/// A list with other items, and what is answered.
pub fn list_changed(alloc: Global, list: Value, items: Seq<Value>, answered: Value) -> Content
    ensures { result ≡ list_changed list items answered }
{
    let Value::Obj(id) = list else {
        return Content::Outside(What::Feature);
    };
    Content::Changed {
        change: Change {
            replacement: Some(Replacement {
                id,
                object: Mutable::List(items),
            }),
            objects: Seq::new(alloc),
        },
        answer: PrimAns::Value(answered),
    }
}

/// A list with other items, and None as the answer. Outside with the cause Length for more than
/// 4,194,304.
pub fn list_grown(alloc: Global, list: Value, items: Seq<Value>) -> Content
    ensures { result ≡ list_grown list items }
{
    if items.len() <= ENTRY_LIMIT {
        return list_changed(alloc, list, items, Value::None);
    }
    Content::Outside(What::Length)
}
