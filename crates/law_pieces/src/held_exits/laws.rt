//! The law of what `finally` parts hold, the contract of a function that does nothing.

ghost use Rattle.std.specs.Prelude.{ℕ};
ghost use Rattle.pt_tree.specs.Blocks.{Code};
ghost use Rattle.sem_control.specs.control.Frames.{Nest};
ghost use Rattle.sem_control.specs.control.Turn.{Around};
ghost use Rattle.law_pieces.specs.held_exits.Laws.{LandsHolding, RaisesHolding, StartsHolding};

/// Whatever the replies, a `break` or a `continue` that a `finally` part holds is one that stands in
/// the body of the loop around that part (Language Reference 7.9, 7.10, 8.4.4): from the beginning
/// of a block whose exits stand in loops, from where a jump lands, if it is so where the jump comes
/// from, and behind a raise there.
pub fn what_is_held_leaves_the_loop_around<V>()
    ensures starts { (block : Around V) (code : Code) (first : V) → StartsHolding block code first }
    ensures lands { (block : Around V) (code : Code) (place : Nest V) (line : ℕ) → LandsHolding block code place line }
    ensures raises { (block : Around V) (code : Code) (place : Nest V) (line : ℕ) → RaisesHolding block code place line }
{}
