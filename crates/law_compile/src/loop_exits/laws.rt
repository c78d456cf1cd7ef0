//! Laws of the exits of loops, each the contract of a function that does nothing.

ghost use Rattle.law_compile.specs.loop_exits.Laws.{BlocksAreShown, ScriptExitsAreReached};

/// In a script without a fault in its declarations some way comes to each place that a `break` or a
/// `continue` leads to, with as many slots as its label says (Language Reference 7.9, 7.10): where
/// each `try` has a statement in its body and each `with` an item.
pub fn exits_of_loops_are_reached<V>()
    ensures { ScriptExitsAreReached V }
{}

/// So a code object of a block of a script's code shows what was laid out: it knows how many slots
/// lie where a loop is left to.
pub fn objects_show_what_is_laid_out<V>()
    ensures { BlocksAreShown V }
{}
