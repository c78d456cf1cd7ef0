//! The objects that the rows of a table name, and the frame in which they are evaluated.

use crate::no_row::NoRow;
use pt_base::{BlockId, FrameNo, Line, ObjId, Seq, Text};
use pt_builtin_objects::start;
use pt_dicts::key_of;
use pt_heap::{
    Binding, Class, Dict, Error, Function, Heap, Instance, Object, Range, Seed, Str, Value, View,
    ViewFrame,
};
use pt_helper_objects::{HELPERS, object_of};
use std::alloc::Global;
use std::mem;

/// Puts objects into a heap and binds names to values.
#[derive(Drop)]
pub struct Maker {
    pub alloc: Global,
    pub heap: Heap,
    pub names: Seq<Binding>,
}

fn seed() -> Seed {
    Seed::of(b"evaluation")
}

impl Maker {
    pub fn new(alloc: Global) -> Result<Maker, NoRow> {
        let mut heap = start(alloc, seed())?;
        for row in &HELPERS {
            let helper = object_of(alloc, seed(), true, row.1)?;
            heap.add(helper)?;
        }
        Ok(Maker {
            alloc,
            heap,
            names: Seq::new(alloc),
        })
    }

    fn add(&mut self, object: Object) -> Result<Value, NoRow> {
        let id = self.heap.add(object)?;
        Ok(Value::Obj(id))
    }

    fn text(&mut self, text: &str) -> Result<Value, NoRow> {
        let text = Text::from_str(self.alloc, text)?;
        self.add(Object::Str(Str::new(text)))
    }

    fn list(&mut self, items: &[Value]) -> Result<Value, NoRow> {
        let items = Seq::from_slice(self.alloc, items)?;
        self.add(Object::List(items))
    }

    fn tuple(&mut self, items: &[Value]) -> Result<Value, NoRow> {
        let items = Seq::from_slice(self.alloc, items)?;
        self.add(Object::Tuple(items))
    }

    fn entries(&mut self, entries: &[(Value, Value)]) -> Result<Dict, NoRow> {
        let mut dict = Dict::new(self.alloc, seed());
        for entry in entries {
            let Ok(key) = key_of(self.alloc, &self.heap, entry.0) else {
                return Err(NoRow);
            };
            let Ok(_) = dict.insert(key, entry.0, entry.1) else {
                return Err(NoRow);
            };
        }
        Ok(dict)
    }

    fn class(&mut self, name: &str, base: u32) -> Result<ObjId, NoRow> {
        let class = Object::Class(Class {
            name: Text::from_str(self.alloc, name)?,
            base: Some(ObjId(base)),
            scripted: true,
            names: Dict::new(self.alloc, seed()),
        });
        let id = self.heap.add(class)?;
        Ok(id)
    }

    fn bind(&mut self, name: &str, value: Value) -> Result<(), NoRow> {
        let name = Text::from_str(self.alloc, name)?;
        self.names.push(Binding { name, value })?;
        Ok(())
    }

    fn bind_text(&mut self, name: &str, text: &str) -> Result<(), NoRow> {
        let value = self.text(text)?;
        self.bind(name, value)
    }

    fn bind_plain(&mut self) -> Result<(), NoRow> {
        self.bind("a", Value::Int(7))?;
        self.bind("b", Value::Int(-3))?;
        self.bind("n", Value::None)?;
        self.bind("t", Value::Bool(true))?;
        self.bind("big", Value::Int(i128::MAX))?;
        self.bind_text("s", "it's")?;
        self.bind_text("u", "")
    }

    fn bind_sequences(&mut self) -> Result<(), NoRow> {
        let x = self.text("x")?;
        let inner = self.list(&[Value::Int(2), x])?;
        let list = self.list(&[Value::Int(1), inner, Value::None])?;
        self.bind("l", list)?;
        let empty = self.list(&[])?;
        self.bind("e", empty)?;
        let pair = self.tuple(&[Value::Int(1), Value::Int(2)])?;
        self.bind("p", pair)?;
        let single = self.tuple(&[Value::Int(5)])?;
        self.bind("q", single)?;
        let range = self.add(Object::Range(Range {
            start: 2,
            stop: 20,
            step: 5,
        }))?;
        self.bind("r", range)
    }

    /// A list that holds itself.
    fn bind_endless(&mut self) -> Result<(), NoRow> {
        let id = self.heap.add(Object::List(Seq::new(self.alloc)))?;
        let items = Seq::from_slice(self.alloc, &[Value::Int(1), Value::Obj(id)])?;
        if id.0 < self.heap.len() {
            let _ = self.heap.set(id, Object::List(items));
        }
        self.bind("o", Value::Obj(id))
    }

    fn bind_keyed(&mut self) -> Result<(), NoRow> {
        let x = self.text("x")?;
        let three = self.list(&[Value::Int(3)])?;
        let n = self.text("n")?;
        let entries = self.entries(&[
            (x, Value::Int(1)),
            (Value::Int(2), three),
            (Value::None, n),
        ])?;
        let dict = self.add(Object::Dict(entries))?;
        self.bind("d", dict)?;
        let entries = self.entries(&[])?;
        let empty = self.add(Object::Dict(entries))?;
        self.bind("z", empty)?;
        let y = self.text("y")?;
        let items = self.entries(&[(Value::Int(1), Value::None), (y, Value::None)])?;
        let set = self.add(Object::Set(items))?;
        self.bind("m", set)
    }

    /// An instance of a script's class, an exception of one, a function, a frame and code.
    fn bind_scripted(&mut self) -> Result<(), NoRow> {
        let class = self.class("C", 0)?;
        let instance = self.add(Object::Instance(Instance {
            class,
            names: Dict::new(self.alloc, seed()),
        }))?;
        self.bind("inst", instance)?;
        let class = self.class("E", 29)?;
        let error = self.add(Object::Error(Error {
            class,
            args: Seq::new(self.alloc),
            cause: None,
            context: None,
            hides_context: false,
            trace: Seq::new(self.alloc),
            names: Dict::new(self.alloc, seed()),
        }))?;
        self.bind("err", error)?;
        let function = self.add(Object::Function(Function {
            block: BlockId(1),
            hidden: false,
            defaults: Seq::new(self.alloc),
            cells: Seq::new(self.alloc),
        }))?;
        self.bind("func", function)?;
        let frame = self.add(Object::Frame(FrameNo(1)))?;
        self.bind("frame", frame)?;
        let code = self.add(Object::CodeRef {
            block: BlockId(1),
            hidden: false,
        })?;
        self.bind("code", code)
    }

    /// The names of the frame.
    pub fn bind_locals(&mut self) -> Result<(), NoRow> {
        self.bind_plain()?;
        self.bind_sequences()?;
        self.bind_endless()?;
        self.bind_keyed()?;
        self.bind_scripted()
    }

    /// Those of the module, of which the frame hides one.
    pub fn bind_globals(&mut self) -> Result<(), NoRow> {
        self.bind_text("a", "hidden")?;
        self.bind("g", Value::Int(12))?;
        self.bind_text("w", "abc")?;
        let three = self.list(&[Value::Int(3)])?;
        let four = self.list(&[Value::Int(4)])?;
        let both = self.list(&[three, four])?;
        self.bind("k", both)?;
        let j = self.text("j")?;
        let entries = self.entries(&[(j, Value::Int(1))])?;
        let inner = self.add(Object::Dict(entries))?;
        let k = self.text("k")?;
        let entries = self.entries(&[(k, inner)])?;
        let outer = self.add(Object::Dict(entries))?;
        self.bind("f", outer)?;
        self.bind("len", Value::Int(3))
    }

    /// The names bound so far.
    pub fn take_names(&mut self) -> Seq<Binding> {
        mem::replace(&mut self.names, Seq::new(self.alloc))
    }
}

fn frame_of(alloc: Global, number: u64, locals: Seq<Binding>) -> Result<ViewFrame, NoRow> {
    Ok(ViewFrame {
        frame: FrameNo(number),
        caller: None,
        generator: false,
        name: Text::from_str(alloc, "f")?,
        line: Line(1),
        params: Seq::new(alloc),
        locals,
    })
}

/// The heap of the rows, and the frames: one without names, and behind it theirs.
pub fn state_of(alloc: Global) -> Result<(Heap, View), NoRow> {
    let mut maker = Maker::new(alloc)?;
    maker.bind_locals()?;
    let locals = maker.take_names();
    maker.bind_globals()?;
    let globals = maker.take_names();
    let mut frames = Seq::new(alloc);
    frames.push(frame_of(alloc, 0, Seq::new(alloc))?)?;
    frames.push(frame_of(alloc, 1, locals)?)?;
    Ok((maker.heap, View { frames, globals }))
}
