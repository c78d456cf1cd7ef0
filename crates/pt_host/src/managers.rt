//! Context managers (Language Reference 3.3.9, 8.5).

ghost use Rattle.std.specs.Prelude.{◌≡◌, IfOk};
ghost use Rattle.pt_host.specs.Attributes.{bound_of};
ghost use Rattle.pt_host.specs.Managers.{exit_arguments, managed_by, manager_of};

use pt_base::{Memory, Seq};
use pt_content::{Found, object_at};
use pt_heap::{Heap, Method, Object, Value};
use pt_prims::{class_of, method_of};
use std::alloc::Global;

/// What a value is entered and left by.
#[derive(Clone, Copy, Debug)]
pub enum Manager {
    /// What `__enter__` is, and the function that `__exit__` is.
    Methods { enter: Found, exit: Value },
    /// It has no `__enter__`.
    NoEnter,
    /// It has no `__exit__`.
    NoExit,
    /// A run doesn't call what `__exit__` is.
    Unavailable,
}

fn managed_by(enter: Option<Found>, exit: Option<Found>) -> Manager
    ensures { result ≡ managed_by enter exit }
{
    let Some(enter) = enter else {
        return Manager::NoEnter;
    };
    match exit {
        Some(Found::Bound(exit)) => Manager::Methods { enter, exit },
        Some(Found::Plain(_)) | Some(Found::Unbuilt) => Manager::Unavailable,
        None => Manager::NoExit,
    }
}

/// What a value is entered and left by, from its class.
pub fn manager_of(alloc: Global, heap: &Heap, value: Value) -> Result<Manager, Memory>
    ensures { IfOk result (λ manager. manager ≡ manager_of heap.now value) }
{
    let enter = method_of(alloc, heap, value, "__enter__")?;
    let exit = method_of(alloc, heap, value, "__exit__")?;
    Ok(managed_by(enter, exit))
}

/// The method of an instance that a value is, if it is one.
pub fn bound_of(heap: &Heap, value: Value) -> Option<Method>
    ensures { result ≡ bound_of heap.now value }
{
    match value {
        Value::Obj(id) => match object_at(heap, id) {
            Some(Object::Method(method)) => Some(*method),
            _ => None,
        },
        _ => None,
    }
}

/// What `__exit__` is told of the raise by which its block is left, if it is left by one.
pub fn exit_arguments(
    alloc: Global,
    heap: &Heap,
    raised: Option<Value>,
) -> Result<Seq<Value>, Memory>
    ensures { IfOk result (λ args. args ≡ exit_arguments heap.now raised) }
{
    match raised {
        Some(raised) => {
            let class = class_of(heap, raised);
            Seq::from_slice(alloc, &[class, raised, Value::None])
        }
        None => Seq::from_slice(alloc, &[Value::None, Value::None, Value::None]),
    }
}
