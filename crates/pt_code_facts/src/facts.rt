ghost use Rattle.std.specs.Prelude.{◌≡◌, IfOk};
ghost use Rattle.sem_code.specs.slots.BlockObject.{text_in};
ghost use Rattle.pt_code_facts.specs.Facts.{blocks_of, facts_at, facts_of, is_generator};
ghost use Rattle.pt_code_facts.specs.Facts.{named_texts, params_of};
ghost use Rattle.pt_code_facts.specs.Numbered.{by_number};
ghost use Rattle.sem_rows.specs.heap_rows.Told.{block_id};

use pt_base::{BlockId, Dup, Line, Memory, Seq, Text};
use pt_bind::Params;
use pt_code::{BlockKind, CodeBlock};
use pt_instr::TextNo;
use std::alloc::Global;

/// What is known of a block beside what it runs.
#[derive(Debug, Drop)]
pub struct BlockFacts {
    pub name: Text,
    pub first_line: Line,
    /// They have no defaults, which stand in function objects.
    pub params: Params,
    /// The local names, the parameters first.
    pub locals: Seq<Text>,
    /// The names whose cells a call makes.
    pub cells: Seq<Text>,
    /// The names whose cells a function takes along.
    pub frees: Seq<Text>,
    /// Whether a call makes a generator.
    pub yields: bool,
}

/// The text of a number; the empty one where there is none.
fn text_in(alloc: Global, texts: &Seq<Text>, number: TextNo) -> Result<Text, Memory>
    ensures { IfOk result (λ text. text ≡ text_in texts.now number.0) }
{
    match texts.get(number.0 as usize) {
        Some(text) => text.dup(alloc),
        None => Ok(Text::new(alloc)),
    }
}

/// The texts of numbers.
fn named_texts(alloc: Global, texts: &Seq<Text>, numbers: &[TextNo]) -> Result<Seq<Text>, Memory>
    ensures { IfOk result (λ names. names ≡ named_texts texts.now numbers.now) }
{
    let mut names = Seq::new(alloc);
    for number in numbers {
        let name = text_in(alloc, texts, *number)?;
        names.push(name)?;
    }
    Ok(names)
}

fn is_generator(kind: BlockKind) -> bool
    ensures { result ≡ is_generator kind }
{
    match kind {
        BlockKind::Generator => true,
        _ => false,
    }
}

/// The parameters of a block, whose names stand before those of its other local names.
fn params_of(alloc: Global, texts: &Seq<Text>, block: &CodeBlock) -> Result<Params, Memory>
    ensures { IfOk result (λ params. params ≡ params_of texts.now block.now) }
{
    let locals = block.locals.as_slice();
    let plain = (block.parameters as usize).min(locals.len());
    let behind = &locals[plain..];
    let only = (block.keyword_only as usize).min(behind.len());
    let plain_names = named_texts(alloc, texts, &locals[..plain])?;
    let only_names = named_texts(alloc, texts, &behind[..only])?;
    Ok(Params {
        plain: plain_names,
        only: only_names,
        star: block.rest.positional,
        stars: block.rest.named,
        defaults: Seq::new(alloc),
    })
}

/// What a code tells of one of its blocks.
pub fn facts_of(alloc: Global, texts: &Seq<Text>, block: &CodeBlock) -> Result<BlockFacts, Memory>
    ensures { IfOk result (λ facts. facts ≡ facts_of texts.now block.now) }
{
    let name = text_in(alloc, texts, block.name)?;
    let params = params_of(alloc, texts, block)?;
    let locals = named_texts(alloc, texts, block.locals.as_slice())?;
    let cells = named_texts(alloc, texts, block.cells.as_slice())?;
    let frees = named_texts(alloc, texts, block.free.as_slice())?;
    Ok(BlockFacts {
        name,
        first_line: block.first_line,
        params,
        locals,
        cells,
        frees,
        yields: is_generator(block.kind),
    })
}

/// What a code tells of its blocks, in their order.
pub fn blocks_of(
    alloc: Global,
    texts: &Seq<Text>,
    blocks: &[CodeBlock],
) -> Result<Seq<BlockFacts>, Memory>
    ensures { IfOk result (λ facts. facts ≡ blocks_of texts.now blocks.now) }
{
    let mut facts = Seq::new(alloc);
    for block in blocks {
        let of_block = facts_of(alloc, texts, block)?;
        facts.push(of_block)?;
    }
    Ok(facts)
}

/// What is known of the blocks of a code by their numbers. The module has number 0, and stands for a
/// number that the code doesn't have.
#[derive(Debug, Drop)]
pub struct SideFacts {
    pub of_module: BlockFacts,
    /// The blocks from number 1 on.
    pub others: Seq<BlockFacts>,
}

impl SideFacts {
    /// What is known of the block of a number, in constant time.
    #[tactic(auto, using(crate::proofs::NumberedLemmas::first, crate::proofs::NumberedLemmas::later, crate::proofs::NumberedLemmas::missing))]
    fn at(&self, block: BlockId) -> &BlockFacts
        ensures { result.now ≡ by_number self.now.of_module self.now.others block.0 }
    {
        if block.0 == 0 {
            return &self.of_module;
        }
        match self.others.get(block.0 as usize - 1) {
            Some(block) => block,
            None => &self.of_module,
        }
    }
}

/// What is known of the blocks of a program: of the script's, and of the prelude's, which are hidden.
#[derive(Debug, Drop)]
pub struct Blocks {
    pub script: SideFacts,
    pub prelude: SideFacts,
}

impl Blocks {
    /// What is known of a block, in constant time.
    pub fn get(&self, block: BlockId, hidden: bool) -> &BlockFacts
        ensures { result.now ≡ facts_at self.now (block_id block hidden) }
    {
        if hidden {
            self.prelude.at(block)
        } else {
            self.script.at(block)
        }
    }
}
