ghost use Rattle.std.specs.Prelude.{◌≡◌, ◌+◌, IfOk, OnOk};

use pt_base::{BlockId, Memory};
use std::alloc::Global;
use std::marker::Model;

/// How many blocks have started, and where the new tree is put.
#[derive(Debug, Drop)]
pub struct Narrower {
    alloc: Global,
    started: u32,
}

impl Model for Narrower {
    ghost use Rattle.std.specs.Prelude.{ℕ};

    ghost Value = { ℕ };

    ghost view = { λ n. n.started };
}

impl Narrower {
    /// The module has started.
    pub fn new(alloc: Global) -> Narrower
        ensures { result ≡ 1 }
    {
        Narrower { alloc, started: 1 }
    }

    pub fn alloc(&self) -> Global {
        self.alloc
    }

    /// The number of a block that starts here, of which there are less than 2^32 - 1.
    pub fn start(&mut self) -> Result<BlockId, Memory>
        ensures number { IfOk result (λ block. block.0 ≡ self.old) }
        ensures started { OnOk result (self.new ≡ 1 + self.old) }
    {
        let block = BlockId(self.started);
        match self.started.checked_add(1) {
            Some(started) => {
                self.started = started;
                Ok(block)
            }
            None => Err(Memory),
        }
    }

    pub fn started(&self) -> u32
        ensures { result ≡ self.now }
    {
        self.started
    }

    /// Blocks that start from here on have the numbers that they had then.
    pub fn return_to(&mut self, started: u32)
        ensures { self.new ≡ started }
    {
        self.started = started;
    }
}
