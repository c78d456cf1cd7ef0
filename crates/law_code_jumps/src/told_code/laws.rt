//! Laws of code that is told of its slots and of code that fits, each the contract of a function that does nothing.

ghost use Rattle.sem_fits.specs.fits.Block.{Block};
ghost use Rattle.sem_run.specs.run.Machine.{BlockId};
ghost use Rattle.pt_bare_code.specs.law_code_runs.code_run.CodeMachine.{CodeSource};
ghost use Rattle.law_code_jumps.specs.told_code.Laws.{AnswersAreJumps, FittingCodeNeverHalts, ToldCodeAnswersJumps};

/// A machine of code that answers each jump as is said of slots jumps so, where the block fits
/// (Library Reference, "inspect": `f_lineno`).
#[tactic(auto, using(crate::proofs::told_code::Answered::answers_are_jumps))]
pub fn answers_said_of_slots_are_jumps<V>()
    ensures { (code : CodeSource V) (b : BlockId) (block : Block) → AnswersAreJumps code b block }
{}

/// Code that is told of the slots of its blocks answers jumps so.
pub fn told_code_answers_by_slots<V>()
    ensures { ToldCodeAnswersJumps V }
{}

/// Where the blocks of code fit and jumps are answered so, a run never halts unfinished: for each
/// host, with its hooks, tools and generators, each debugger and each bound.
pub fn code_that_fits_never_halts<D, N, V, W>()
    ensures { FittingCodeNeverHalts D N V W }
{}
