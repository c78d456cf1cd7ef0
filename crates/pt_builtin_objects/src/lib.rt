//! The objects that each run starts with: classes, functions, modules, the names of events
//! and of the module that runs.
#![tactic(auto)]

ghost use Rattle.std.specs.Prelude.{◌≡◌, ◌+◌, ◌++◌, ◌≤◌, IfErr, IfOk, OnOk, length, map};
ghost use Rattle.pt_builtin_objects.specs.Start.{object_of, objects_of, start_objects};
ghost use Rattle.pt_heap.specs.Limits.{object_limit};
ghost use Rattle.pt_heap.specs.Sound.{IsSound};

use pt_base::{Memory, ObjId, Text};
use pt_heap::{Builtin, Class, Dict, Heap, HeapErr, Instance, Module, Object, Seed, Str};
use std::alloc::Global;

/// A sort of object that a run starts with.
#[derive(Clone, Copy, Debug)]
pub enum Kind {
    /// A class, with the place of its base.
    Class(Option<ObjId>),
    /// A function, by its number.
    Function(u32),
    /// An object of class `object` that only stands for itself.
    Mark,
    Module(Module),
    /// A text that runs give.
    Text,
}

/// The names of the objects that a run starts with, in the order of their places (Library
/// Reference, "Built-in Types", "Exception hierarchy", "Built-in Functions", `types`, `sys`,
/// `sys.monitoring`). The texts at the end are those by which a trace function is told of events,
/// and the name of the module that runs ("__main__").
pub const START: [(&str, Kind); 85] = [
    ("object", Kind::Class(None)),
    ("type", Kind::Class(Some(ObjId(0)))),
    ("int", Kind::Class(Some(ObjId(0)))),
    ("bool", Kind::Class(Some(ObjId(2)))),
    ("str", Kind::Class(Some(ObjId(0)))),
    ("list", Kind::Class(Some(ObjId(0)))),
    ("tuple", Kind::Class(Some(ObjId(0)))),
    ("set", Kind::Class(Some(ObjId(0)))),
    ("dict", Kind::Class(Some(ObjId(0)))),
    ("range", Kind::Class(Some(ObjId(0)))),
    ("slice", Kind::Class(Some(ObjId(0)))),
    ("NoneType", Kind::Class(Some(ObjId(0)))),
    ("ellipsis", Kind::Class(Some(ObjId(0)))),
    ("NotImplementedType", Kind::Class(Some(ObjId(0)))),
    ("function", Kind::Class(Some(ObjId(0)))),
    ("method", Kind::Class(Some(ObjId(0)))),
    ("builtin_function_or_method", Kind::Class(Some(ObjId(0)))),
    ("generator", Kind::Class(Some(ObjId(0)))),
    ("frame", Kind::Class(Some(ObjId(0)))),
    ("code", Kind::Class(Some(ObjId(0)))),
    ("module", Kind::Class(Some(ObjId(0)))),
    ("super", Kind::Class(Some(ObjId(0)))),
    ("dict_keys", Kind::Class(Some(ObjId(0)))),
    ("dict_values", Kind::Class(Some(ObjId(0)))),
    ("dict_items", Kind::Class(Some(ObjId(0)))),
    ("iterator", Kind::Class(Some(ObjId(0)))),
    ("BaseException", Kind::Class(Some(ObjId(0)))),
    ("SystemExit", Kind::Class(Some(ObjId(26)))),
    ("GeneratorExit", Kind::Class(Some(ObjId(26)))),
    ("Exception", Kind::Class(Some(ObjId(26)))),
    ("ArithmeticError", Kind::Class(Some(ObjId(29)))),
    ("ZeroDivisionError", Kind::Class(Some(ObjId(30)))),
    ("AssertionError", Kind::Class(Some(ObjId(29)))),
    ("AttributeError", Kind::Class(Some(ObjId(29)))),
    ("ImportError", Kind::Class(Some(ObjId(29)))),
    ("ModuleNotFoundError", Kind::Class(Some(ObjId(34)))),
    ("LookupError", Kind::Class(Some(ObjId(29)))),
    ("IndexError", Kind::Class(Some(ObjId(36)))),
    ("KeyError", Kind::Class(Some(ObjId(36)))),
    ("NameError", Kind::Class(Some(ObjId(29)))),
    ("UnboundLocalError", Kind::Class(Some(ObjId(39)))),
    ("RuntimeError", Kind::Class(Some(ObjId(29)))),
    ("NotImplementedError", Kind::Class(Some(ObjId(41)))),
    ("RecursionError", Kind::Class(Some(ObjId(41)))),
    ("StopIteration", Kind::Class(Some(ObjId(29)))),
    ("TypeError", Kind::Class(Some(ObjId(29)))),
    ("ValueError", Kind::Class(Some(ObjId(29)))),
    ("print", Kind::Function(0)),
    ("len", Kind::Function(1)),
    ("repr", Kind::Function(2)),
    ("isinstance", Kind::Function(3)),
    ("issubclass", Kind::Function(4)),
    ("iter", Kind::Function(5)),
    ("next", Kind::Function(6)),
    ("abs", Kind::Function(7)),
    ("divmod", Kind::Function(8)),
    ("ord", Kind::Function(9)),
    ("chr", Kind::Function(10)),
    ("hasattr", Kind::Function(11)),
    ("getattr", Kind::Function(12)),
    ("setattr", Kind::Function(13)),
    ("callable", Kind::Function(14)),
    ("settrace", Kind::Function(15)),
    ("gettrace", Kind::Function(16)),
    ("exit", Kind::Function(17)),
    ("_getframe", Kind::Function(18)),
    ("use_tool_id", Kind::Function(19)),
    ("free_tool_id", Kind::Function(20)),
    ("get_tool", Kind::Function(21)),
    ("register_callback", Kind::Function(22)),
    ("set_events", Kind::Function(23)),
    ("get_events", Kind::Function(24)),
    ("set_local_events", Kind::Function(25)),
    ("get_local_events", Kind::Function(26)),
    ("restart_events", Kind::Function(27)),
    ("DISABLE", Kind::Mark),
    ("MISSING", Kind::Mark),
    ("sys", Kind::Module(Module::Sys)),
    ("monitoring", Kind::Module(Module::Monitoring)),
    ("events", Kind::Module(Module::Events)),
    ("call", Kind::Text),
    ("line", Kind::Text),
    ("return", Kind::Text),
    ("exception", Kind::Text),
    ("__main__", Kind::Text),
];

/// The places of the classes of lists, sets and dictionaries.
pub const LIST_CLASS: ObjId = ObjId(5);

pub const SET_CLASS: ObjId = ObjId(7);

pub const DICT_CLASS: ObjId = ObjId(8);

/// The object of a name.
fn made(alloc: Global, seed: Seed, name: &str, kind: Kind) -> Result<Object, Memory>
    ensures { IfOk result (λ object. object ≡ object_of name.now kind) }
{
    match kind {
        Kind::Class(base) => {
            let name = Text::from_str(alloc, name)?;
            Ok(Object::Class(Class {
                name,
                base,
                scripted: false,
                names: Dict::new(alloc, seed),
            }))
        }
        Kind::Function(number) => Ok(Object::Builtin(Builtin {
            number,
            receiver: None,
        })),
        Kind::Mark => Ok(Object::Instance(Instance {
            class: ObjId(0),
            names: Dict::new(alloc, seed),
        })),
        Kind::Module(module) => Ok(Object::Module(module)),
        Kind::Text => {
            let text = Text::from_str(alloc, name)?;
            Ok(Object::Str(Str::new(text)))
        }
    }
}

/// Puts the objects of names behind those of a heap.
fn add_all(alloc: Global, seed: Seed, rows: &[(&str, Kind)], heap: &mut Heap) -> Result<(), HeapErr>
    requires { length heap.old + length rows.now ≤ object_limit }
    ensures ok { OnOk result (heap.new ≡ heap.old ++ objects_of (map (λ r. (r.0.now, r.1)) rows.now)) }
    ensures err { IfErr result (λ error. error ≡ HeapErr.Memory) }
{
    for row in rows {
        let object = made(alloc, seed, row.0, row.1)?;
        heap.add(object)?;
    }
    Ok(())
}

/// A heap of the objects that each run starts with. It has room for them, so that only memory may
/// lack.
pub fn start(alloc: Global, seed: Seed) -> Result<Heap, HeapErr>
    ensures objects { IfOk result (λ heap. heap ≡ start_objects) }
    ensures sound { IfOk result (IsSound start_objects) }
    ensures err { IfErr result (λ error. error ≡ HeapErr.Memory) }
{
    let mut heap = Heap::new(alloc, seed);
    add_all(alloc, seed, &START, &mut heap)?;
    Ok(heap)
}
