ghost use Rattle.std.specs.Prelude.{◌≡◌, ◌+◌, ◌-◌, ◌<◌, ◌≤◌, ◌↔◌, ◌∷◌, [], ◌++◌, None, Some, Err};
ghost use Rattle.std.specs.Prelude.{false};
ghost use Rattle.std.specs.Prelude.{drop, length, slice_get, slice_set, IsTrue, OnOk, OnErr, IfOk};
ghost use Rattle.std.specs.Prelude.{IfSome};
ghost use Rattle.std.specs.Option.{option_map};
ghost use Rattle.indexmap.specs.IndexMap.{set_value_at};
ghost use Rattle.pt_names.specs.Names.{bindings_of, name_value, place_of, value_in_place};
ghost use Rattle.pt_names.specs.Names.{with_place};
ghost use Rattle.pt_frames.specs.Activations.{active_exception, next_activation, on_newest, put_at};
ghost use Rattle.pt_frames.specs.Activations.{value_at, with_activation, with_cell, with_cell_at};
ghost use Rattle.pt_frames.specs.Activations.{with_depth, with_global, with_name, with_new_cell};
ghost use Rattle.pt_frames.specs.Activations.{with_next_number, with_slot, OnNewest};
ghost use Rattle.pt_frames.specs.Limits.{activation_limit};

use crate::activations::{Activations, OpenActivation};
use crate::{Activation, Place, Purpose, Slot};
use pt_base::{BlockId, Dup, FrameNo, Line, Memory, Pc, Seq, Text};
use pt_bind::Locals;
use pt_heap::{Binding, Seed, Value};
use pt_names::Names;
use std::alloc::Global;

/// The most activations that may be open.
const ACTIVATION_LIMIT: usize = 1_000;

/// The most cells that are kept.
const CELL_LIMIT: usize = 4_294_967_295;

/// Why an activation is not opened.
#[derive(Clone, Copy, Debug, PartialEq, Eq)]
pub enum OpenErr {
    /// As many are open as may be.
    TooDeep,
    Memory,
}

impl From<Memory> for OpenErr {
    ghost use Rattle.std.specs.Prelude.{◌≡◌};
    ghost use Rattle.pt_frames.specs.declared.frames.OpenErr.TheVariants.{Memory as out_of_memory};

    ghost from_gives = { λ _ e. e ≡ out_of_memory };

    fn from(_: Memory) -> Self {
        OpenErr::Memory
    }
}

/// The open activations, the cells and the names of the module.
#[derive(Drop)]
pub struct Frames {
    alloc: Global,
    seed: Seed,
    pub activations: Activations,
    pub cells: Seq<Option<Value>>,
    pub globals: Names,
    /// How many frame numbers were given.
    pub frame_count: u64,
}

impl Frames {
    /// No activation, no cell and no name. The seed is that of the names' hashes.
    pub fn new(alloc: Global, seed: Seed) -> Frames
        ensures activations { result.activations ≡ [] }
        ensures cells { result.cells ≡ [] }
        ensures globals { result.globals ≡ [] }
        ensures frame_count { result.frame_count ≡ 0 }
    {
        Frames {
            alloc,
            seed,
            activations: Activations::new(alloc),
            cells: Seq::new(alloc),
            globals: Names::new(alloc, seed),
            frame_count: 0,
        }
    }

    /// Whether as many activations are open as may be.
    pub fn is_full(&self) -> bool
        ensures full { IsTrue result ↔ (length self.now.activations ≡ activation_limit) }
        ensures room { result ≡ false → length self.now.activations < activation_limit }
    {
        self.activations.len() == ACTIVATION_LIMIT
    }

    /// How many activations are open.
    pub fn depth(&self) -> usize
        ensures value { result ≡ length self.now.activations }
        ensures within { result ≤ activation_limit }
    {
        self.activations.len()
    }

    /// Makes an activation, with a new frame number, that isn't open. Where all numbers were given
    /// it answers Memory.
    pub fn fresh(
        &mut self,
        block: BlockId,
        hidden: bool,
        locals: Locals,
    ) -> Result<Activation, Memory>
        ensures activation { IfOk result
            (λ a. a ≡ next_activation self.old block hidden locals) }
        ensures ok { OnOk result (self.new ≡ with_next_number self.old) }
        ensures err { OnErr result (self.new ≡ self.old) }
    {
        if self.frame_count == u64::MAX {
            return Err(Memory);
        }
        let frame = FrameNo(self.frame_count);
        self.frame_count += 1;
        Ok(Activation::new(self.alloc, self.seed, frame, block, hidden, locals))
    }

    /// Opens an activation of a block.
    pub fn open(
        &mut self,
        block: BlockId,
        hidden: bool,
        locals: Locals,
        why: Purpose,
    ) -> Result<FrameNo, OpenErr>
        ensures number { IfOk result (λ n. n.0 ≡ self.old.frame_count) }
        ensures ok { OnOk result
            (self.new
            ≡ with_activation (next_activation self.old block hidden locals) why
            (with_next_number self.old)) }
        ensures err { OnErr result (self.new ≡ self.old) }
        ensures full { (result ≡ Err OpenErr.TooDeep)
            ↔ (length self.old.activations ≡ activation_limit) }
    {
        if self.is_full() {
            return Err(OpenErr::TooDeep);
        }
        if self.frame_count == u64::MAX {
            return Err(OpenErr::Memory);
        }
        let frame = FrameNo(self.frame_count);
        let activation = Activation::new(self.alloc, self.seed, frame, block, hidden, locals);
        self.activations.push(OpenActivation { activation, why })?;
        self.frame_count += 1;
        Ok(frame)
    }

    /// Opens an activation that `fresh` has made or `leave` has taken out, as it is.
    pub fn enter(&mut self, activation: Activation, why: Purpose) -> Result<(), Memory>
        requires { length self.old.activations < activation_limit }
        ensures ok { OnOk result (self.new ≡ with_activation activation why self.old) }
        ensures err { OnErr result (self.new ≡ self.old) }
    {
        self.activations.push(OpenActivation { activation, why })
    }

    /// Takes the newest activation out.
    pub fn leave(&mut self) -> (Activation, Purpose)
        requires { 0 < length self.old.activations }
        ensures { self.old ≡ with_activation result.0 result.1 self.new }
    {
        let OpenActivation { activation, why } = self.activations.pop();
        (activation, why)
    }

    /// Closes the newest activation, and answers what becomes of its value.
    pub fn close(&mut self) -> Purpose
        requires { 0 < length self.old.activations }
        ensures { OnNewest
            (λ a. self.old ≡ with_activation a result self.new) self.old.activations }
    {
        let (_, why) = self.leave();
        why
    }

    /// Puts a slot on those of the newest activation.
    pub fn push(&mut self, slot: Slot) -> Result<(), Memory>
        requires { 0 < length self.old.activations }
        ensures ok { OnOk result (self.new ≡ with_slot slot self.old) }
        ensures err { OnErr result (self.new ≡ self.old) }
    {
        self.activations.newest_mut().activation.slots.push(slot)
    }

    /// Takes the top slot of the newest activation off.
    pub fn pop(&mut self) -> Slot
        requires { OnNewest (λ a. 0 < length a.slots) self.old.activations }
        ensures { self.old ≡ with_slot result self.new }
    {
        match self.activations.newest_mut().activation.slots.pop() {
            Some(slot) => slot,
            None => unreachable!(),
        }
    }

    /// How many slots the newest activation has.
    pub fn slot_count(&self) -> usize
        requires { 0 < length self.now.activations }
        ensures value { OnNewest (λ a. result ≡ length a.slots) self.now.activations }
        ensures some { 0 < result → OnNewest (λ a. 0 < length a.slots) self.now.activations }
    {
        self.activations.newest().activation.slots.len()
    }

    /// The slot of the newest activation that so many others are above, if it is there.
    pub fn slot(&self, above: usize) -> Option<Slot>
        requires { 0 < length self.now.activations }
        ensures { OnNewest (λ a. result ≡ slice_get a.slots above) self.now.activations }
    {
        self.activations.newest().activation.slots.get(above)
    }

    /// Takes slots of the newest activation off the top until so many are left, if there are more.
    pub fn cut(&mut self, depth: usize)
        requires { 0 < length self.old.activations }
        ensures { self.new ≡ with_depth depth self.old }
    {
        self.activations.newest_mut().activation.slots.cut(depth);
    }

    /// The active exception: that of the uppermost slot with an exception, or with a raise that is
    /// held, in the newest activation that has one (Language Reference 7.8, 8.4).
    pub fn active_exception(&self) -> Option<Value>
        ensures { result ≡ active_exception self.now.activations }
    {
        self.activations.active()
    }

    /// The activation that so many open ones are newer than.
    pub fn at(&self, newer: usize) -> &Activation
        requires { newer < length self.now.activations }
        ensures { option_map (λ o. o.activation) (slice_get self.now.activations newer)
            ≡ Some result.now }
    {
        &self.activations.at(newer).activation
    }

    /// The number of the newest activation.
    pub fn frame(&self) -> FrameNo
        requires { 0 < length self.now.activations }
        ensures { OnNewest (λ a. result ≡ a.frame) self.now.activations }
    {
        self.activations.newest().activation.frame
    }

    /// The block of the newest activation.
    pub fn block(&self) -> BlockId
        requires { 0 < length self.now.activations }
        ensures { OnNewest (λ a. result ≡ a.block) self.now.activations }
    {
        self.activations.newest().activation.block
    }

    /// Whether the newest activation's block is one of the prelude's.
    pub fn hidden(&self) -> bool
        requires { 0 < length self.now.activations }
        ensures { OnNewest (λ a. result ≡ a.hidden) self.now.activations }
    {
        self.activations.newest().activation.hidden
    }

    /// The place of the newest activation's next instruction.
    pub fn pc(&self) -> Pc
        requires { 0 < length self.now.activations }
        ensures { OnNewest (λ a. result ≡ a.pc) self.now.activations }
    {
        self.activations.newest().activation.pc
    }

    pub fn set_pc(&mut self, pc: Pc)
        requires { 0 < length self.old.activations }
        ensures { self.new ≡ on_newest (λ a. record a { pc = pc }) self.old }
    {
        self.activations.newest_mut().activation.pc = pc;
    }

    /// The line of the newest activation's last act, or None where none has begun.
    pub fn line(&self) -> Option<Line>
        requires { 0 < length self.now.activations }
        ensures { OnNewest (λ a. result ≡ a.line) self.now.activations }
    {
        self.activations.newest().activation.line
    }

    pub fn set_line(&mut self, line: Line)
        requires { 0 < length self.old.activations }
        ensures { self.new ≡ on_newest (λ a. record a { line = Some line }) self.old }
    {
        self.activations.newest_mut().activation.line = Some(line);
    }

    /// The value at a place of the newest activation, if it has the place and a value stands there.
    pub fn get(&self, place: Place) -> Option<Value>
        requires { 0 < length self.now.activations }
        ensures { OnNewest (λ a. result ≡ value_at self.now.cells a place) self.now.activations }
    {
        self.activations
            .newest()
            .activation
            .value_at(&self.cells, place)
    }

    /// Puts a value, or none, at a place of the newest activation. Where it lacks the place,
    /// nothing changes.
    pub fn put(&mut self, place: Place, value: Option<Value>)
        requires { 0 < length self.old.activations }
        ensures { self.new ≡ put_at place value self.old }
    {
        match place {
            Place::Local(number) => self
                .activations
                .newest_mut()
                .activation
                .set_local(number, value),
            Place::Cell(number) => {
                let cell = self.activations.newest().activation.cell(number);
                self.set_cell_value(cell, value);
            }
        }
    }

    /// The number of the cell of a cell or free name of the newest activation.
    pub fn cell(&self, i: u32) -> u32
        requires { OnNewest (λ a. i < length a.cells) self.now.activations }
        ensures { OnNewest (λ a. slice_get a.cells i ≡ Some result) self.now.activations }
    {
        match self.activations.newest().activation.cells.get(i as usize) {
            Some(cell) => *cell,
            None => unreachable!(),
        }
    }

    /// Gives a cell or free name of the newest activation another cell.
    pub fn set_cell(&mut self, i: u32, cell: u32)
        requires { OnNewest (λ a. i < length a.cells) self.old.activations }
        ensures { self.new ≡ with_cell_at i cell self.old }
    {
        self.activations
            .newest_mut()
            .activation
            .cells
            .set(i as usize, cell);
    }

    /// Makes an unbound cell, and answers its number. Where 2^32 - 1 are there it answers Memory.
    pub fn new_cell(&mut self) -> Result<u32, Memory>
        ensures number { IfOk result (λ n. n ≡ length self.old.cells) }
        ensures ok { OnOk result (self.new ≡ with_new_cell self.old) }
        ensures err { OnErr result (self.new ≡ self.old) }
    {
        let number = self.cells.len();
        if number >= CELL_LIMIT {
            return Err(Memory);
        }
        self.cells.push(None)?;
        Ok(number as u32)
    }

    /// Puts a value, or none, into a cell, where there is one of this number.
    pub fn put_cell(&mut self, cell: u32, value: Option<Value>)
        ensures { self.new ≡ record self.old { cells = slice_set self.old.cells cell value } }
    {
        self.set_cell_value(Some(cell), value);
    }

    /// The value of a name of the newest activation's class block.
    pub fn name(&self, name: &str) -> Option<Value>
        requires { 0 < length self.now.activations }
        ensures { OnNewest (λ a. result ≡ name_value name.now a.names) self.now.activations }
    {
        self.activations.newest().activation.names.get(name)
    }

    /// Binds a name of the newest activation's class block, or unbinds it.
    pub fn set_name(&mut self, name: &Text, value: Option<Value>) -> Result<(), Memory>
        requires { 0 < length self.old.activations }
        ensures ok { OnOk result (self.new ≡ with_name name.now value self.old) }
        ensures err { OnErr result (self.new ≡ self.old) }
    {
        let alloc = self.alloc;
        self.activations
            .newest_mut()
            .activation
            .names
            .set(alloc, name.as_str(), value)
    }

    /// The names of the newest activation's class block that are bound, with their values, in the
    /// order in which each was first bound.
    pub fn name_bindings(&self) -> Result<Seq<Binding>, Memory>
        requires { 0 < length self.now.activations }
        ensures { IfOk result
            (λ bs. OnNewest (λ a. bs ≡ bindings_of a.names) self.now.activations) }
    {
        self.activations
            .newest()
            .activation
            .names
            .bindings(self.alloc)
    }

    /// The place of a name of the module, which it keeps. Where it has none it is put behind the
    /// others, without a value.
    pub fn global_place(&mut self, name: &Text) -> Result<usize, Memory>
        ensures place { IfOk result (λ place. place_of name.now self.new.globals ≡ Some place) }
        ensures ok { OnOk result
            (self.new ≡ record self.old { globals = with_place name.now self.old.globals }) }
        ensures err { OnErr result (self.new ≡ self.old) }
    {
        self.globals.place(self.alloc, name.as_str())
    }

    /// The value of the module's name at a place, if the place and a value are there. It is found
    /// in constant time, whatever the names are, and no text is made.
    pub fn global_at(&self, place: usize) -> Option<Value>
        ensures { result ≡ value_in_place place self.now.globals }
    {
        self.globals.value_at(place)
    }

    /// Binds the module's name at a place, or unbinds it. Where the place isn't there, nothing
    /// changes.
    pub fn set_global_at(&mut self, place: usize, value: Option<Value>)
        ensures { self.new
            ≡ record self.old { globals = set_value_at self.old.globals place value } }
    {
        self.globals.set_at(place, value);
    }

    /// The names of the module that are bound, with their values, in the order in which each was
    /// first bound or given a place.
    pub fn global_bindings(&self) -> Result<Seq<Binding>, Memory>
        ensures { IfOk result (λ bs. bs ≡ bindings_of self.now.globals) }
    {
        self.globals.bindings(self.alloc)
    }

    /// The value of a name of the module. It is found by its hash, and no text is made.
    pub fn global(&self, name: &str) -> Option<Value>
        ensures { result ≡ name_value name.now self.now.globals }
    {
        self.globals.get(name)
    }

    /// Binds a name of the module, or unbinds it.
    pub fn set_global(&mut self, name: &Text, value: Option<Value>) -> Result<(), Memory>
        ensures ok { OnOk result (self.new ≡ with_global name.now value self.old) }
        ensures err { OnErr result (self.new ≡ self.old) }
    {
        self.globals.set(self.alloc, name.as_str(), value)
    }

    /// Puts a value, or none, into a cell, where there is one.
    fn set_cell_value(&mut self, cell: Option<u32>, value: Option<Value>)
        ensures { self.new ≡ record self.old { cells = with_cell self.old.cells cell value } }
    {
        if let Some(cell) = cell {
            let at = cell as usize;
            if at < self.cells.len() {
                self.cells.set(at, value);
            }
        }
    }
}

impl Dup for Frames {
    fn dup(&self, alloc: Global) -> Result<Frames, Memory> {
        let activations = self.activations.dup(alloc)?;
        let cells = Seq::from_slice(alloc, self.cells.as_slice())?;
        let globals = self.globals.dup(alloc)?;
        Ok(Frames {
            alloc: self.alloc,
            seed: self.seed,
            activations,
            cells,
            globals,
            frame_count: self.frame_count,
        })
    }
}
