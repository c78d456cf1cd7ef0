//! The law of slots in reached states, the contract of a function that does nothing.

ghost use Rattle.law_jumps.specs.filled_nests.Laws.{ReachedHoldEnds};

/// In each state to which a script and its code come together, the slots of control's nest are those
/// of its closed parts, below any others (Library Reference, "inspect": `f_lineno`). What a
/// `finally` part holds leads to where the loop around that part goes on (Language Reference 7.9,
/// 7.10, 8.4.4).
pub fn reached_nests_are_filled<V>()
    ensures { ReachedHoldEnds V }
{}
