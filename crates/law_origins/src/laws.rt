//! Laws of where raises land, each the contract of a function that does nothing.

ghost use Rattle.std.specs.Prelude.{List};
ghost use Rattle.pt_code.specs.View.{Ins};
ghost use Rattle.pt_ranges.specs.declared.handlers.Handler.{Handler};
ghost use Rattle.sem_code.specs.slots.CodeObject.{CodeObject};
ghost use Rattle.law_origins.specs.Landings.{LandsBelowWhatIsGiven, LandsWhereTheFirstDid, LeavesAsTheFirstDid};
ghost use Rattle.law_origins.specs.Laws.{InstructionsHaveOrigins};

/// A raise that takes the place of a reply lands where a raise in that reply's place would have, with
/// as many of the lowest slots as lay below what was taken; and where an exception has landed already
/// or has left the block, another one in its place does so too.
pub fn raises_of_hooks_land_where_replies_do<V>()
    ensures given { (code : CodeObject V) (rows : List Handler) → LandsBelowWhatIsGiven code rows }
    ensures landed { (code : CodeObject V) (rows : List Handler) → LandsWhereTheFirstDid code rows }
    ensures left { (code : CodeObject V) (rows : List Handler) → LeavesAsTheFirstDid code rows }
{}

/// So of each instruction its place and the number of slots below what it takes tell where a raise of
/// a hook lands, behind whatever is told of its reply (Library Reference, `sys.settrace`).
pub fn instructions_tell_where_raises_land<V>()
    ensures { (code : CodeObject V) (i : Ins) → InstructionsHaveOrigins code i }
{}
