//! Laws of control, each the contract of a function that does nothing.

ghost use Rattle.std.specs.Prelude.{◌≡◌, ℕ, Bool, true, List, None};
ghost use Rattle.pt_tree.specs.Blocks.{Code};
ghost use Rattle.pt_tree.specs.Syntax.{Exp, Name, Stms, absent, break, global, handler, more, no_handlers, none, pass, return, try, while};
ghost use Rattle.sem_control.specs.control.ClosedParts.{All_apart, parts_of};
ghost use Rattle.sem_control.specs.control.Control.{go, turn};
ghost use Rattle.sem_control.specs.control.Endings.{All_reached};
ghost use Rattle.sem_control.specs.control.Frames.{Completion, Control, Frame, Nest, Way};
ghost use Rattle.sem_control.specs.control.Jump.{Shape};
ghost use Rattle.sem_control.specs.control.Laws.{ClosesBy, ComesToAct, LandsByRows, LandsInNests, LandsPermitted, LiesInParts, MeetsAllRows, RaisesByRows, RaisesInNests, StartsByRows, StartsInNests, TakesOff};
ghost use Rattle.sem_control.specs.control.Reached.{Leads, start_code};
ghost use Rattle.sem_control.specs.control.Samples.{counting, generating, jumping, nested_body};
ghost use Rattle.sem_control.specs.control.Turn.{Around, move, stuck};

/// Control always knows what is next: an ask, a note, or the end of the block.
pub fn turns_are_never_stuck<V>()
    ensures never_stuck { (block : Around V) (c : Control V) → turn block c ≡ stuck → ⊥ }
    ensures never_moves { (block : Around V) (c d : Control V) → turn block c ≡ move d → ⊥ }
{}

/// Whatever the replies, each act that control comes to in a block has the kind and the line of the
/// block's row with its number, and a re-test begins with it only where the row says so.
#[tactic(auto, using(crate::proofs::control::MarksLaw::marks_are_rows))]
pub fn each_mark_is_its_row<V>()
    ensures { (block : Around V) (code : Code) (first : V) → StartsByRows code block first }
{}

/// From where a jump lands too, whatever the replies, and from a raise that comes before the
/// target's statement begins, each act has the kind and the line of the block's row with its number.
#[tactic(auto, using(crate::proofs::control::MarksJumps::marks_behind_jumps, crate::proofs::control::MarksJumps::marks_behind_raises))]
pub fn each_mark_behind_a_jump_is_its_row<V>()
    ensures goes { (block : Around V) (code : Code) (place : Nest V) (line : ℕ) → LandsByRows code block place line }
    ensures raised { (block : Around V) (code : Code) (place : Nest V) (line : ℕ) → RaisesByRows code block place line }
{}

/// Whatever is true of each act of a block in the shape of the nest that the tree gives it is true of
/// each act that control comes to, in the shape of the nest in which it then is: from the block's
/// start, from where a jump lands, and from a raise there, whatever the replies.
#[tactic(auto, using(crate::proofs::control::MarksNests::acts_in_nests, crate::proofs::control::MarksNests::acts_behind_jumps_in_nests, crate::proofs::control::MarksNests::acts_behind_raises_in_nests))]
pub fn acts_stand_in_the_nests_of_the_tree<V>()
    ensures starts { (says : Shape → ℕ → Bool) (block : Around V) (code : Code) (first : V)
        → StartsInNests (λ s n. says s n ≡ true) code block first }
    ensures lands { (says : Shape → ℕ → Bool) (block : Around V) (code : Code) (place : Nest V) (line : ℕ)
        → LandsInNests (λ s n. says s n ≡ true) code block place line }
    ensures raises { (says : Shape → ℕ → Bool) (block : Around V) (code : Code) (place : Nest V) (line : ℕ)
        → RaisesInNests (λ s n. says s n ≡ true) code block place line }
{}

/// In a block where each statement can be reached, as far as the forms of statements tell, each row
/// is the mark of an act that control comes to with some replies; of a lambda and of a generator
/// expression each row always is.
#[tactic(auto, using(crate::proofs::control::MarksMetLaw::rows_are_met))]
pub fn each_row_is_met<V>()
    ensures { (block : Around V) (code : Code) (first : V) → MeetsAllRows code block first }
{}

/// Statements that can be reached, also behind a loop that only a `break` leaves, and two that
/// cannot: one behind a `return`, and a handler of a body without an act.
pub fn statements_are_reached()
    ensures counting { All_reached counting }
    ensures generating { All_reached generating }
    ensures nested { All_reached nested_body }
    ensures jumping { All_reached jumping }
    ensures behind_a_break { (l : ℕ) (c : Exp) → All_reached (more (while l c (more (break l) none) (more (return l absent) none)) (more (pass l) none)) }
    ensures behind_a_return { (l : ℕ) (ss : Stms) → All_reached (more (return l absent) (more (pass l) ss)) → ⊥ }
    ensures caught_return { (l : ℕ) → All_reached (more (try l (more (return l absent) none) (handler l absent None (more (pass l) none) no_handlers) none none) (more (pass l) none)) }
    ensures nothing_to_catch { (l : ℕ) (xs : List Name) → All_reached (more (try l (more (global l xs) none) (handler l absent None none no_handlers) none none) none) → ⊥ }
{}

/// A completion that leaves a block closes it, and one that is passed to a frame goes the way of
/// the table's row.
pub fn completions_go_the_ways_of_the_table<V>()
    ensures leaves { (block : Around V) (c : Completion V) → ClosesBy block c }
    ensures goes_on { (block : Around V) (c : Completion V) (f : Frame V) (s : Nest V) → TakesOff block c f s }
{}

/// Behind a permitted jump there is a nest of the shape that the target has by the syntax, and each
/// closed part holds in it what the same part holds at the place of the jump.
#[tactic(auto, using(crate::proofs::control::JumpLemmas::jump_lands))]
pub fn a_permitted_jump_lands<V>()
    ensures { (code : Code) (line : ℕ) (place : Nest V) → LandsPermitted code line place }
{}

/// Within a block no two closed parts are the same, whatever acts they have, and a statement lies in
/// parts of its block alone.
#[tactic(auto, using(crate::proofs::control::PartsApart::parts_apart, crate::proofs::control::PartsAmong::targets_among))]
pub fn no_two_parts_are_the_same()
    ensures apart { (block : Stms) → All_apart (parts_of block 0) }
    ensures of_block { (block : Stms) (line : ℕ) → LiesInParts block line }
{}

/// From a block's start, from where a jump lands and behind each reply, an act or the end of the
/// block is next, behind as many notes and unmarked asks as `most_silent` says, if none of them
/// raises. So a decision has a destination.
#[tactic(auto, using(crate::proofs::control::NextActs::behind_starts, crate::proofs::control::NextActs::behind_ways, crate::proofs::control::NextActs::behind_replies))]
pub fn an_act_comes_next<V>()
    ensures starts { (block : Around V) (code : Code) (first : V) → ComesToAct block (start_code block code first) }
    ensures lands { (block : Around V) (k : Way V) → ComesToAct block (go block k) }
    ensures replied { (block : Around V) (c d : Control V) → Leads (turn block c) d → ComesToAct block d }
{}
