//! A variable of a block.

ghost use Rattle.std.specs.Prelude.{◌≡◌, IfOk};

use pt_base::{Memory, Text};
use pt_scopes::Scope;
use std::alloc::Global;

/// A name of a block as code has it: how it is found (Language Reference 4.2.2), and its spelling,
/// by which no two variables of the block are alike.
#[derive(Debug, Drop)]
pub struct Variable {
    pub scope: Scope,
    pub name: Text,
}

impl Variable {
    /// An equal variable.
    pub fn copy(&self, alloc: Global) -> Result<Variable, Memory>
        ensures { IfOk result (λ v. v ≡ self.now) }
    {
        Ok(Variable {
            scope: self.scope,
            name: Text::from_str(alloc, self.name.as_str())?,
        })
    }
}
