ghost use Rattle.pt_code_facts.specs.sem_rows.heap_rows.Told.{block_id};
ghost use Rattle.pt_machine_state.specs.Blocks.{block_at, depth_of};
ghost use Rattle.pt_code_facts.specs.Numbered.{by_number};
ghost use Rattle.std.specs.Prelude.{◌≡◌};

use pt_base::{BlockId, Line, Pc, Seq, Text};
use pt_places::{Handlers, Places};

/// What the machine knows of a block, made once.
#[derive(Drop)]
pub struct BlockCode {
    pub name: Text,
    pub first_line: Line,
    pub places: Places,
    pub handlers: Handlers,
    /// How many slots lie at each place, where some way comes to it.
    pub depths: Seq<u32>,
    /// Whether the block is a generator expression's, which begins with an iterator.
    pub iterates: bool,
}

impl BlockCode {
    /// How many slots lie at a place, in constant time.
    #[tactic(auto, using(pt_code_facts::proofs::NumberedLemmas::none_in))]
    pub fn depth(&self, pc: Pc) -> usize
        ensures { result ≡ depth_of self.now pc.0 }
    {
        match self.depths.get(pc.0 as usize) {
            Some(depth) => *depth as usize,
            None => 0,
        }
    }
}

/// The blocks of a code by their numbers. The module has number 0, and stands for a number that the
/// code doesn't have.
#[derive(Drop)]
pub struct SideBlocks {
    pub of_module: BlockCode,
    /// The blocks from number 1 on.
    pub others: Seq<BlockCode>,
}

impl SideBlocks {
    /// The block of a number, in constant time.
    #[tactic(auto, using(pt_code_facts::proofs::NumberedLemmas::first, pt_code_facts::proofs::NumberedLemmas::later, pt_code_facts::proofs::NumberedLemmas::missing))]
    fn at(&self, block: BlockId) -> &BlockCode
        ensures { result.now ≡ by_number self.now.of_module self.now.others block.0 }
    {
        if block.0 == 0 {
            return &self.of_module;
        }
        match self.others.get(block.0 as usize - 1) {
            Some(block) => block,
            None => &self.of_module,
        }
    }
}

/// The blocks of a program: the script's, and the prelude's, which are hidden.
#[derive(Drop)]
pub struct Blocks {
    pub script: SideBlocks,
    pub prelude: SideBlocks,
}

impl Blocks {
    /// A block, in constant time.
    pub fn at(&self, block: BlockId, hidden: bool) -> &BlockCode
        ensures { result.now ≡ block_at self.now (block_id block hidden) }
    {
        if hidden {
            self.prelude.at(block)
        } else {
            self.script.at(block)
        }
    }
}
