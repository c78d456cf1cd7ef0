//! A law of the code of expressions, the contract of a function that does nothing.

ghost use Rattle.law_parts.specs.plain_slots.Laws.{ExpressionsKeepSlots};

/// At each place in the code of an expression the slots with which it begins lie below those that
/// are made within it, none of which holds a completion (Library Reference, "dis": the evaluation
/// stack; Language Reference 6).
pub fn the_code_of_an_expression_keeps_the_slots_below<A, V>()
    ensures { ExpressionsKeepSlots A V }
{}
