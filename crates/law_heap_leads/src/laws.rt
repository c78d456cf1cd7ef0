//! The law of iterators of the heap, the contract of a function that does nothing.
ghost use Rattle.law_heap_leads.specs.Laws.{IteratorsEndByThemselves};

/// No exception ends an iterator of the host over the heap but the one that left a block which was asked
/// for its next item: where no item follows, it is at its end by itself (Language Reference 8.3).
pub fn iterators_end_by_themselves()
    ensures { IteratorsEndByThemselves }
{}
