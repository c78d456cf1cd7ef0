ghost use Rattle.std.specs.Prelude.{◌≡◌, slice_get, slice_set};
ghost use Rattle.std.specs.Option.{option_flatten};

use crate::Slots;
use pt_base::{BlockId, Dup, FrameNo, Line, Memory, Pc, Seq};
use pt_bind::Locals;
use pt_heap::{Seed, Value};
use pt_names::Names;
use std::alloc::Global;

/// A place of a block at which a value may stand, by the number of its name in the block.
#[derive(Clone, Copy, Debug, PartialEq, Eq)]
pub enum Place {
    Local(u32),
    /// In the cell of this cell or free name.
    Cell(u32),
}

/// A run of a block (Language Reference 4.1), open or kept by a generator.
#[derive(Drop)]
pub struct Activation {
    pub frame: FrameNo,
    pub block: BlockId,
    /// Whether the block is one of the prelude's.
    pub hidden: bool,
    pub pc: Pc,
    /// The line of the act that began last.
    pub line: Option<Line>,
    pub locals: Seq<Option<Value>>,
    /// The numbers of its cells.
    pub cells: Seq<u32>,
    pub slots: Slots,
    /// The names of a class block.
    pub names: Names,
}

impl Activation {
    ghost use Rattle.std.specs.Prelude.{◌≡◌, slice_get, slice_set};
    ghost use Rattle.pt_frames.specs.Activations.{new_activation, value_at};

    /// An activation that is about to begin.
    pub fn new(
        alloc: Global,
        seed: Seed,
        frame: FrameNo,
        block: BlockId,
        hidden: bool,
        locals: Locals,
    ) -> Activation
        ensures { result ≡ new_activation frame block hidden locals }
    {
        let Locals {
            values,
            star: _,
            stars: _,
            cells,
        } = locals;
        Activation {
            frame,
            block,
            hidden,
            pc: Pc(0),
            line: None,
            locals: values,
            cells,
            slots: Slots::new(alloc),
            names: Names::new(alloc, seed),
        }
    }

    /// The number of the cell of a cell or free name.
    pub fn cell(&self, number: u32) -> Option<u32>
        ensures { result ≡ slice_get self.now.cells number }
    {
        self.cells.get(number as usize).copied()
    }

    /// The value at a place, if it has the place and a value stands there.
    pub fn value_at(&self, cells: &Seq<Option<Value>>, place: Place) -> Option<Value>
        ensures { result ≡ value_at cells.now self.now place }
    {
        match place {
            Place::Local(number) => value_in(&self.locals, number),
            Place::Cell(number) => match self.cell(number) {
                Some(cell) => value_in(cells, cell),
                None => None,
            },
        }
    }

    /// Puts a value, or none, at a local name, if it has that.
    pub fn set_local(&mut self, number: u32, value: Option<Value>)
        ensures { self.new ≡ record self.old { locals = slice_set self.old.locals number value } }
    {
        let at = number as usize;
        if at < self.locals.len() {
            self.locals.set(at, value);
        }
    }
}

/// The value at a number, if there is one.
fn value_in(values: &Seq<Option<Value>>, number: u32) -> Option<Value>
    ensures { result ≡ option_flatten (slice_get values.now number) }
{
    match values.get(number as usize) {
        Some(value) => *value,
        None => None,
    }
}

impl Dup for Activation {
    fn dup(&self, alloc: Global) -> Result<Activation, Memory> {
        let locals = Seq::from_slice(alloc, self.locals.as_slice())?;
        let cells = Seq::from_slice(alloc, self.cells.as_slice())?;
        let slots = self.slots.dup(alloc)?;
        let names = self.names.dup(alloc)?;
        Ok(Activation {
            frame: self.frame,
            block: self.block,
            hidden: self.hidden,
            pc: self.pc,
            line: self.line,
            locals,
            cells,
            slots,
            names,
        })
    }
}
