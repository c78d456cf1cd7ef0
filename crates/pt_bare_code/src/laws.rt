//! Laws of bare runs of code, each the contract of a function that does nothing.

ghost use Rattle.std.specs.Prelude.{ℕ};
ghost use Rattle.sem_run.specs.run.Follows.{By, Related};
ghost use Rattle.sem_run.specs.run.Host.{Host};
ghost use Rattle.sem_run.specs.run.Machine.{BlockId, Machine};
ghost use Rattle.sem_run.specs.run.Source.{Source};
ghost use Rattle.sem_run.specs.run.Source as script;
ghost use Rattle.sem_code_machine.specs.code_machine.CodeBlocks.{CodeBlocks};
ghost use Rattle.sem_code_machine.specs.code_machine.CodeBlocks as coded;
ghost use Rattle.pt_bare_runs.specs.Laws.{NeverStuck, OpensOnly};
ghost use Rattle.pt_bare_code.specs.Law.{HaveTheirCode, NoneGivesOn};
ghost use Rattle.pt_bare_code.specs.Turns.{FollowsTurns, HaveTheSameBareRuns, IsStuckNowhereElse, WritesNothingElse};

/// Two machines of which the one follows the turns of the other have the same bare runs: for each
/// host and bound the one comes to an outcome exactly where the other does, and that which follows
/// is never stuck if the other isn't. Also where it comes to no outcome, the other writes first what
/// it writes first.
#[tactic(auto, using(crate::proofs::Runs::have_the_same_bare_runs, crate::proofs::Stuck::stuck_nowhere_else, crate::proofs::Writes::writes_nothing_else))]
pub fn machines_that_follow_turns_have_the_same_bare_runs<S, R, N, V, W, P>()
    ensures outcomes { (first : Machine S V) (second : Machine R V) (at : P → Related S R)
        → FollowsTurns first second (By at)
        → (host : Host N V W) (n : ℕ) (block : BlockId) (names : N) (world : W)
        → HaveTheSameBareRuns first second host n block names world }
    ensures stuck { (first : Machine S V) (second : Machine R V) (at : P → Related S R)
        → FollowsTurns first second (By at)
        → (host : Host N V W) (n : ℕ) (block : BlockId) (names : N) (world : W)
        → IsStuckNowhereElse first second host n block names world }
    ensures writes { (first : Machine S V) (second : Machine R V) (at : P → Related S R)
        → FollowsTurns first second (By at)
        → (host : Host N V W) (n : ℕ) (block : BlockId) (names : N) (world : W)
        → WritesNothingElse first second host n block names world }
{}

/// Where the code object of each block stands for its block, the code has the bare runs of the
/// script: for each host and bound it comes to an outcome exactly where the script does, and it is
/// never stuck if the script isn't. Also where it comes to no outcome, the script writes first what it
/// writes first.
pub fn code_has_the_bare_runs_of_its_script<N, V, W>()
    ensures outcomes { (source : Source V) (code : CodeBlocks V) → HaveTheirCode source code
        → (host : Host N V W) (n : ℕ) (block : BlockId) (names : N) (world : W)
        → HaveTheSameBareRuns (script.machine source) (coded.machine code) host n block names world }
    ensures stuck { (source : Source V) (code : CodeBlocks V) → HaveTheirCode source code
        → (host : Host N V W) (n : ℕ) (block : BlockId) (names : N) (world : W)
        → IsStuckNowhereElse (script.machine source) (coded.machine code) host n block names world }
    ensures writes { (source : Source V) (code : CodeBlocks V) → HaveTheirCode source code
        → (host : Host N V W) (n : ℕ) (block : BlockId) (names : N) (world : W)
        → WritesNothingElse (script.machine source) (coded.machine code) host n block names world }
{}

/// So a bare run of code whose blocks give no value on is never stuck, over each host that requests
/// nothing but that blocks run.
pub fn code_that_gives_nothing_on_is_never_stuck<N, V, W>()
    ensures { (source : Source V) (code : CodeBlocks V) → HaveTheirCode source code
        → NoneGivesOn source → (host : Host N V W) → OpensOnly host
        → (n : ℕ) (block : BlockId) (names : N) (world : W)
        → NeverStuck (coded.machine code) host n block names world }
{}
