//! How many steps may be taken of what grows faster than what it goes over.
#![tactic(auto)]

ghost use Rattle.std.specs.Prelude.{◌≡◌, ◌+◌, ◌<◌, IfErr, IfOk};

use pt_base::Memory;

/// How many more steps may be taken.
#[derive(Clone, Copy, Debug)]
pub struct Budget {
    pub left: u64,
}

impl Budget {
    pub fn new(steps: u64) -> Budget
        ensures { result.left ≡ steps }
    {
        Budget { left: steps }
    }

    /// Takes so many steps.
    ///
    /// # Errors
    ///
    /// `Memory` where fewer are left.
    pub fn spend(&mut self, steps: u64) -> Result<(), Memory>
        ensures taken { IfOk result (λ _. self.old.left ≡ steps + self.new.left) }
        ensures short { IfErr result (λ _. self.old.left < steps) }
    {
        match self.left.checked_sub(steps) {
            None => Err(Memory),
            Some(less) => {
                self.left = less;
                Ok(())
            }
        }
    }
}
