//! The law of facts, the contract of a function that does nothing.

ghost use Rattle.pt_code_facts.specs.Facts.{FactsKnowNames};

/// The numbers in operands of a block's code name what stands at them in the facts of the block.
pub fn facts_know_the_names_of_code()
    ensures { FactsKnowNames }
{}
