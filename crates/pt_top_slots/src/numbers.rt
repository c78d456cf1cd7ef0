//! Numbers of classes.
ghost use Rattle.std.specs.Prelude.{IfOk};
ghost use Rattle.pt_top_slots.specs.Numbers.{AreNumbers, IsNumbered};

use pt_base::Memory;
use std::alloc::Global;
use std::collections::BTreeMap;

/// The numbers of classes, each by what stands for it on its level.
#[derive(Debug, Drop)]
pub struct Numbers {
    pub known: BTreeMap<(usize, u64), usize>,
    pub count: usize,
}

impl Numbers {
    pub fn new(alloc: Global) -> Numbers
        ensures { AreNumbers result }
    {
        Numbers {
            known: BTreeMap::new(alloc),
            count: 0,
        }
    }

    /// The number of a class, the next one where it has none.
    pub fn number(&mut self, root: usize, level: u64) -> Result<usize, Memory>
        requires { AreNumbers self.old }
        ensures { IfOk result (λ number. IsNumbered root level number self.old self.new) }
    {
        if let Some(number) = self.known.get(&(root, level)).copied() {
            return Ok(number);
        }
        let number = self.count;
        let Some(count) = number.checked_add(1) else {
            return Err(Memory);
        };
        self.known.insert((root, level), number)?;
        self.count = count;
        Ok(number)
    }
}
