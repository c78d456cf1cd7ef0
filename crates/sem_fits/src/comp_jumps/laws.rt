//! Laws of jumps in code, each the contract of a function that does nothing.

ghost use Rattle.sem_control.specs.control.Turn.{Around};
ghost use Rattle.sem_code.specs.slots.CodeObject.{CodeObject};
ghost use Rattle.sem_fits.specs.fits.Block.{Block};
ghost use Rattle.sem_fits.specs.comp_jumps.Law.{
  AnsweredAlike,
  ClosedTellApart,
  JumpsByParts,
  JumpsLand,
  JumpsMatch,
  NestsAreFilled,
  RefusedAlike,
  SlotsAreCut,
  StatementsStand,
  StaysIn,
};

/// Each statement of a block whose code stands has a start in the table, and code goes on there as
/// control does, with the slots of the closed parts around. So behind a jump that control permits,
/// code comes from the target's start to states that match. In each nest where code goes on, its
/// slots are those of the closed parts; cut to as many as lie around a target, they are those of
/// the target's nest, and code comes from there to states that match.
pub fn a_jump_lands_where_code_goes_on<V>()
    ensures stands { (block : Around V) (code : CodeObject V) → StatementsStand block code }
    ensures lands { (block : Around V) (code : CodeObject V) → JumpsLand block code }
    ensures filled { (block : Around V) (code : CodeObject V) → NestsAreFilled block code }
    ensures cut { (code : CodeObject V) → SlotsAreCut code }
    ensures matches { (block : Around V) (code : CodeObject V) → JumpsMatch block code }
{}

/// Where the slots in common of two places are those of the closed parts around both, a jump said
/// of slots has the verdict of the parts. So it is permitted as control permits it, to as many
/// slots as lie at the target, or refused alike, also where nothing starts on the line.
pub fn jumps_on_slots_are_those_on_parts<V>()
    ensures parts { (b : Block) → JumpsByParts b }
    ensures answered { (b : Block) → AnsweredAlike V b }
    ensures refused { (b : Block) → RefusedAlike V b }
{}

/// They are so where each closed part is a range of places whose slot is made anew on each way in
/// and kept by no way out, and is one slot in all of the range.
pub fn closed_parts_tell_slots_apart()
    ensures stays { (b : Block) → StaysIn b }
    ensures apart { (b : Block) → ClosedTellApart b }
{}
