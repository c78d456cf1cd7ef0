//! Laws of the code of blocks, each the contract of a function that does nothing.

ghost use Rattle.sem_control.specs.control.Turn.{Around};
ghost use Rattle.sem_code.specs.slots.CodeObject.{CodeObject};
ghost use Rattle.sem_code.specs.comp_expr.Samples.{sample_block};
ghost use Rattle.sem_code.specs.comp.Law.{
  ActiveAlike,
  BlocksBegin,
  Follows,
  GeneratorsBegin,
  LambdasBegin,
  NestsLie,
  WaysGoOn,
};
ghost use Rattle.sem_code.specs.comp.Places.{Block_at};
ghost use Rattle.sem_code.specs.comp.Samples.{
  every_statement,
  every_statement_code,
  every_statement_starts,
};

/// Where the code of a block stands, code and control come from its beginning to states that match.
/// From all states that match, both have the same act, the same ask without a mark, the same note
/// or the same end, and behind each reply they come to states that match again. They come to such
/// states too from each place where code goes on as control does, as behind a jump. In states that
/// match, the same exception is active, and slots lie as in control's nest.
pub fn the_code_of_a_block_follows_it<V>()
    ensures blocks { (block : Around V) (code : CodeObject V) → BlocksBegin block code }
    ensures lambdas { (block : Around V) (code : CodeObject V) → LambdasBegin block code }
    ensures generators { (block : Around V) (code : CodeObject V) → GeneratorsBegin block code }
    ensures follows { (block : Around V) (code : CodeObject V) → Follows block code }
    ensures ways { (block : Around V) (code : CodeObject V) → WaysGoOn block code }
    ensures active { (block : Around V) (code : CodeObject V) → ActiveAlike block code }
    ensures lie { (block : Around V) (code : CodeObject V) → NestsLie block code }
{}

/// A block that holds every statement has code that stands so.
#[tactic(auto, using(crate::proofs::comp::Sample::stands))]
pub fn every_statement_has_code()
    ensures { Block_at sample_block every_statement_code every_statement_starts every_statement }
{}
