//! What names mean in a frame.
ghost use Rattle.std.specs.Prelude.{◌≡◌};
ghost use Rattle.pt_builtins.specs.Lookups.{builtin_view};
ghost use Rattle.pt_eval.specs.Names.{meaning, value_in};

use pt_builtins::{BuiltinLookup, builtin};
use pt_heap::{Binding, Value};

/// The names of a frame, and those of the module.
#[derive(Clone, Copy)]
pub struct Names<'a> {
    pub locals: &'a [Binding],
    pub globals: &'a [Binding],
}

/// The value of a name, if it is bound.
fn value_in(bindings: &[Binding], name: &str) -> Option<Value>
    ensures { result ≡ value_in bindings.now name.now }
{
    for binding in bindings {
        if binding.name.is(name) {
            return Some(binding.value);
        }
    }
    None
}

impl Names<'_> {
    /// What a name means: what it is bound to in the frame, else in the module, else by itself.
    pub fn meaning(&self, name: &str) -> BuiltinLookup
        ensures { builtin_view result ≡ meaning self.now.locals.now self.now.globals.now name.now }
    {
        if let Some(value) = value_in(self.locals, name) {
            return BuiltinLookup::Found(value);
        }
        match value_in(self.globals, name) {
            Some(value) => BuiltinLookup::Found(value),
            None => builtin(name),
        }
    }
}
