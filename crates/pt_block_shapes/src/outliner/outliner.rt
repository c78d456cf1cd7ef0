ghost use Rattle.std.specs.Prelude.{◌≡◌, OnOk, IfOk};
ghost use Rattle.pt_block_shapes.specs.outliner.Outline.{a_block, a_comprehension, acts as acts_of, behind, beginning, listed, numbered as numbered_from};

use pt_base::{Memory, Seq, Shared, Text};
use sem_names::BlockShape;
use std::alloc::Global;
use std::marker::Model;

/// What the blocks of a script are for names, in the order of their numbers; for each region that is a
/// comprehension the number of its first Next, by region; and the number of the next act.
#[derive(Drop)]
pub struct Outliner {
    alloc: Global,
    blocks: Vec<BlockShape>,
    nexts: Vec<Option<u32>>,
    act: u32,
}

impl Model for Outliner {
    ghost use Rattle.pt_block_shapes.specs.outliner.Outline.{Outline};

    ghost Value = { Outline };

    ghost view = { λ o. record { blocks = o.blocks.items; nexts = o.nexts.items; act = o.act } };
}

impl Outliner {
    /// Nothing, with the number of the next act.
    #[tactic(auto, using(crate::proofs::outliner::Steps::steps))]
    pub fn new(alloc: Global, act: u32) -> Outliner
        ensures { result ≡ beginning act }
    {
        Outliner {
            alloc,
            blocks: Vec::new(alloc),
            nexts: Vec::new(alloc),
            act,
        }
    }

    /// Nothing of the same script, with the number of the next act.
    pub fn aside(&self, act: u32) -> Outliner
        ensures { result ≡ beginning act }
    {
        Outliner::new(self.alloc, act)
    }

    /// The number of the next act.
    pub fn act(&self) -> u32
        ensures { result ≡ self.now.act }
    {
        self.act
    }

    /// Counts acts. More than can be numbered are want of memory.
    #[tactic(auto, using(crate::proofs::outliner::Steps::steps))]
    pub fn count(&mut self, acts: u32) -> Result<(), Memory>
        ensures { OnOk result (self.new ≡ behind self.old (acts_of acts)) }
    {
        self.act = self.act.checked_add(acts).ok_or(Memory)?;
        Ok(())
    }

    /// Counts an act for each item of a list.
    pub fn count_items(&mut self, items: usize) -> Result<(), Memory>
        ensures { OnOk result (self.new ≡ behind self.old (acts_of items)) }
    {
        self.count(u32::try_from(items).map_err(|_| Memory)?)
    }

    /// The next act has another number.
    #[tactic(auto, using(crate::proofs::outliner::Steps::steps))]
    pub fn number_from(&mut self, act: u32)
        ensures { self.new ≡ numbered_from self.old act }
    {
        self.act = act;
    }

    /// Puts the regions of another outline behind these. The next act keeps its number.
    #[tactic(auto, using(crate::proofs::outliner::Steps::steps))]
    pub fn list(&mut self, other: Outliner) -> Result<(), Memory>
        ensures { OnOk result (self.new ≡ listed self.old other) }
    {
        let Outliner { blocks, nexts, .. } = other;
        let mut blocks = blocks;
        let mut nexts = nexts;
        self.blocks.append(&mut blocks)?;
        self.nexts.append(&mut nexts)?;
        Ok(())
    }

    /// Begins a block.
    #[tactic(auto, using(crate::proofs::outliner::Steps::steps))]
    pub fn open_block(&mut self, class: &Shared<Text>, is_function: bool) -> Result<(), Memory>
        ensures { OnOk result (self.new ≡ behind self.old
            (a_block (record { class = class.now; is_function = is_function }))) }
    {
        self.blocks.push(BlockShape {
            class: class.share()?,
            is_function,
        })?;
        self.nexts.push(None)?;
        Ok(())
    }

    /// Begins a comprehension.
    #[tactic(auto, using(crate::proofs::outliner::Steps::steps))]
    pub fn open_comprehension(&mut self, evaluated: bool, next: u32) -> Result<(), Memory>
        ensures { OnOk result (self.new ≡ behind self.old (a_comprehension evaluated next)) }
    {
        self.nexts.push(if evaluated { Some(next) } else { None })?;
        Ok(())
    }

    /// The name of a class, which its blocks share.
    pub fn class(&self, name: &str) -> Result<Shared<Text>, Memory>
        ensures { IfOk result (λ c. c ≡ name.now) }
    {
        Shared::new(self.alloc, Text::from_str(self.alloc, name)?)
    }

    /// The shapes of the blocks, and the numbers of first Nexts by region.
    pub fn into_parts(self) -> (Seq<BlockShape>, Seq<Option<u32>>)
        ensures { (result.0 ≡ self.blocks) × (result.1 ≡ self.nexts) }
    {
        let Outliner { blocks, nexts, .. } = self;
        (Seq::from_vec(blocks), Seq::from_vec(nexts))
    }
}
