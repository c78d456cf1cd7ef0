ghost use Rattle.pt_builtins.specs.declared.BuiltinLookup.TheVariants as lookup;
ghost use Rattle.pt_code_tables.specs.Tables.{builtin_in, capture_in, constant_in};
ghost use Rattle.pt_code_tables.specs.Tables.{is_class_in, list_in, pool_in, text_in};
ghost use Rattle.std.specs.Prelude.{◌≡◌};

use pt_base::{BlockId, Seq, Text};
use pt_builtins::BuiltinLookup;
use pt_code_facts::Blocks as Facts;
use pt_heap::Value;
use pt_instr::{ConstNo, ListNo, TextNo};
use pt_machine_state::Blocks;

/// What the numbers in operands of a code name, made once (Library Reference, "inspect": code
/// objects).
#[derive(Drop)]
pub struct PoolTables {
    /// The values of constants. Those of texts are objects that each run starts with.
    pub constants: Seq<Value>,
    pub texts: Seq<Text>,
    /// What each text means by itself, as a name.
    pub builtins: Seq<BuiltinLookup>,
    pub lists: Seq<Seq<Text>>,
    /// How many cells a function of each block takes along.
    pub captures: Seq<u32>,
    /// Whether each block is the body of a class.
    pub classes: Seq<bool>,
}

impl PoolTables {
    /// The value of a constant, None where there is none.
    #[tactic(auto, using(pt_code_facts::proofs::NumberedLemmas::none_in))]
    pub fn constant(&self, number: ConstNo) -> Value
        ensures { result ≡ constant_in self.now number.0 }
    {
        match self.constants.get(number.0 as usize) {
            Some(value) => *value,
            None => Value::None,
        }
    }

    /// A text, the empty one where there is none.
    #[tactic(auto, using(pt_code_facts::proofs::NumberedLemmas::none_in))]
    pub fn text(&self, number: TextNo) -> &str
        ensures { result.now ≡ text_in self.now number.0 }
    {
        match self.texts.get(number.0 as usize) {
            Some(text) => text.as_str(),
            None => "",
        }
    }

    /// What a text means by itself, as a name.
    #[tactic(auto, using(pt_code_facts::proofs::NumberedLemmas::none_in))]
    pub fn builtin(&self, number: TextNo) -> BuiltinLookup
        ensures { result ≡ builtin_in self.now number.0 }
    {
        match self.builtins.get(number.0 as usize) {
            Some(lookup) => *lookup,
            None => BuiltinLookup::Unbound,
        }
    }

    /// The texts of a list, none where there is no list.
    #[tactic(auto, using(pt_code_facts::proofs::NumberedLemmas::none_in))]
    pub fn list(&self, number: ListNo) -> &[Text]
        ensures { result.now ≡ list_in self.now number.0 }
    {
        match self.lists.get(number.0 as usize) {
            Some(texts) => texts.as_slice(),
            None => &[],
        }
    }

    /// How many cells a function of a block takes along.
    #[tactic(auto, using(pt_code_facts::proofs::NumberedLemmas::none_in))]
    pub fn captures(&self, block: BlockId) -> usize
        ensures { result ≡ capture_in self.now block.0 }
    {
        match self.captures.get(block.0 as usize) {
            Some(count) => *count as usize,
            None => 0,
        }
    }

    /// Whether a block is the body of a class.
    #[tactic(auto, using(pt_code_facts::proofs::NumberedLemmas::none_in))]
    pub fn is_class(&self, block: BlockId) -> bool
        ensures { result ≡ is_class_in self.now block.0 }
    {
        match self.classes.get(block.0 as usize) {
            Some(is_class) => *is_class,
            None => false,
        }
    }
}

/// What a run reads of its code: of the blocks of the script and of the prelude, and what the numbers
/// in operands of each of the two name.
#[derive(Drop)]
pub struct CodeTables {
    pub blocks: Blocks,
    pub facts: Facts,
    pub script: PoolTables,
    pub prelude: PoolTables,
}

impl CodeTables {
    /// What numbers name in hidden blocks, or in the script's.
    pub fn pool(&self, hidden: bool) -> &PoolTables
        ensures { result.now ≡ pool_in self.now hidden }
    {
        if hidden { &self.prelude } else { &self.script }
    }
}
