//! Copies of what a heap holds.

use crate::{Binding, Class, Error, Function, Instance, Object, TraceEntry, Value};
use pt_base::{Dup, Memory};
use std::alloc::Global;

impl Dup for Value {
    fn dup(&self, _alloc: Global) -> Result<Value, Memory> {
        Ok(*self)
    }
}

impl Dup for TraceEntry {
    fn dup(&self, _alloc: Global) -> Result<TraceEntry, Memory> {
        Ok(*self)
    }
}

impl Dup for Binding {
    fn dup(&self, alloc: Global) -> Result<Binding, Memory> {
        let name = self.name.dup(alloc)?;
        Ok(Binding {
            name,
            value: self.value,
        })
    }
}

impl Dup for Function {
    fn dup(&self, alloc: Global) -> Result<Function, Memory> {
        let defaults = self.defaults.dup(alloc)?;
        let cells = self.cells.dup(alloc)?;
        Ok(Function {
            block: self.block,
            hidden: self.hidden,
            defaults,
            cells,
        })
    }
}

impl Dup for Class {
    fn dup(&self, alloc: Global) -> Result<Class, Memory> {
        let name = self.name.dup(alloc)?;
        let names = self.names.dup(alloc)?;
        Ok(Class {
            name,
            base: self.base,
            scripted: self.scripted,
            names,
        })
    }
}

impl Dup for Instance {
    fn dup(&self, alloc: Global) -> Result<Instance, Memory> {
        let names = self.names.dup(alloc)?;
        Ok(Instance {
            class: self.class,
            names,
        })
    }
}

impl Dup for Error {
    fn dup(&self, alloc: Global) -> Result<Error, Memory> {
        let args = self.args.dup(alloc)?;
        let trace = self.trace.dup(alloc)?;
        let names = self.names.dup(alloc)?;
        Ok(Error {
            class: self.class,
            args,
            cause: self.cause,
            context: self.context,
            hides_context: self.hides_context,
            trace,
            names,
        })
    }
}

impl Dup for Object {
    fn dup(&self, alloc: Global) -> Result<Object, Memory> {
        match self {
            Object::Str(text) => Ok(Object::Str(text.dup(alloc)?)),
            Object::List(items) => Ok(Object::List(items.dup(alloc)?)),
            Object::Tuple(items) => Ok(Object::Tuple(items.dup(alloc)?)),
            Object::Dict(dict) => Ok(Object::Dict(dict.dup(alloc)?)),
            Object::Set(set) => Ok(Object::Set(set.dup(alloc)?)),
            Object::Function(function) => Ok(Object::Function(function.dup(alloc)?)),
            Object::Class(class) => Ok(Object::Class(class.dup(alloc)?)),
            Object::Instance(instance) => Ok(Object::Instance(instance.dup(alloc)?)),
            Object::Error(error) => Ok(Object::Error(error.dup(alloc)?)),
            Object::Range(range) => Ok(Object::Range(*range)),
            Object::Slice(slice) => Ok(Object::Slice(*slice)),
            Object::Cursor(cursor) => Ok(Object::Cursor(*cursor)),
            Object::View(view) => Ok(Object::View(*view)),
            Object::Method(method) => Ok(Object::Method(*method)),
            Object::Builtin(builtin) => Ok(Object::Builtin(*builtin)),
            Object::Generator(number) => Ok(Object::Generator(*number)),
            Object::Frame(frame) => Ok(Object::Frame(*frame)),
            Object::CodeRef { block, hidden } => Ok(Object::CodeRef {
                block: *block,
                hidden: *hidden,
            }),
            Object::Module(module) => Ok(Object::Module(*module)),
            Object::Super(super_object) => Ok(Object::Super(*super_object)),
        }
    }
}
