//! The names of a block, and the questions that its code asks of them.

ghost use Rattle.std.specs.Prelude.{◌≡◌, map, IfOk};
ghost use Rattle.pt_block_names.specs.Named.{around, numbers, variable_of};

use crate::script_names::ScriptNames;
use crate::variable::Variable;
use pt_base::{ActNo, BlockId, Memory, Seq, Shared, Text};
use std::alloc::Global;

/// How a block of a script names its variables.
#[derive(Drop)]
pub struct BlockNames {
    pub names: Shared<ScriptNames>,
    pub block: BlockId,
}

impl BlockNames {
    /// The allocator of the names.
    pub fn alloc(&self) -> Global {
        self.names.get().alloc
    }

    /// The variable that a name is, within comprehensions that are known by the numbers of their first
    /// `Next`, the innermost first.
    pub fn variable(&self, within: &[ActNo], name: &str) -> Result<Variable, Memory>
        ensures { IfOk result (λ v. variable_of v
            ≡ (around (tt {0}) self.now).variable (numbers within.now) name.now) }
    {
        let spelling = self.spelled(name)?;
        match within.first() {
            Some(comprehension) => self
                .names
                .get()
                .within(self.block, *comprehension, spelling),
            None => Ok(self.names.get().own(self.block, spelling)),
        }
    }

    /// How a name is spelled in the block: with its class, if it is private
    /// (Language Reference 6.2.1).
    pub fn spelled(&self, name: &str) -> Result<Text, Memory>
        ensures { IfOk result (λ t. t ≡ (around (tt {0}) self.now).spelled name.now) }
    {
        self.names.get().spelled(self.block, name)
    }

    /// The variables whose cells a block in it takes along, in the order in which that block has them.
    pub fn captured(&self, block: BlockId) -> Result<Seq<Variable>, Memory>
        ensures { IfOk result (λ vs. map variable_of vs ≡ (around (tt {0}) self.now).captured block.0) }
    {
        self.names.get().captured(block)
    }
}
