//! Laws of runs, each the contract of a function that does nothing.

ghost use Rattle.std.specs.Prelude.{ℕ, Bool};
ghost use Rattle.sem_run.specs.run.Events.{Event};
ghost use Rattle.sem_run.specs.run.Follows.{Among, By, Follows, NeverMoves, Related, Standing, Stays, slowly};
ghost use Rattle.sem_run.specs.run.Host.{Host};
ghost use Rattle.sem_run.specs.run.Laws.{BeginAlike, GoesOn, HasOneOutcome, HasParts, HaveTheSameRuns, HidesBlocks, HidesHooks, IsAsAlone, NeverHalts, NeverStuck, OutcomesBeginSo, PassesUnminded, ResumesAsItWas, SuspendsAsItIs, session};
ghost use Rattle.sem_run.specs.run.Machine.{BlockId, Machine, both_sides};
ghost use Rattle.sem_run.specs.run.Run.{Debugger, Session};
ghost use Rattle.sem_run.specs.run.Shown.{ShowsOnce, WritesItFirst};
ghost use Rattle.sem_run.specs.run.Source.{Source, machine};
ghost use Rattle.sem_run.specs.run.State.{State};

/// Under a bound on acts a run has at most one outcome.
#[tactic(auto, using(crate::proofs::run::RunLemmas::runs_once))]
pub fn a_run_has_one_outcome<D, S, N, V, W>()
    ensures { (machine : Machine S V) (host : Host N V W) (ask : Debugger D N V W) (n : ℕ)
        (x : Session D S N V W) → HasOneOutcome machine host ask n x }
{}

/// A run is what has come so far and what comes from there.
#[tactic(auto, using(crate::proofs::run::RunLemmas::has_parts))]
pub fn a_run_has_parts<D, S, N, V, W>()
    ensures { (machine : Machine S V) (host : Host N V W) (ask : Debugger D N V W) (n : ℕ)
        (x : Session D S N V W) → HasParts machine host ask n x }
{}

/// Under a greater bound a run comes to the same outcome; one that was spent begins with the same
/// outputs and goes on.
#[tactic(auto, using(crate::proofs::run::RunLemmas::goes_on_from))]
pub fn a_greater_bound_goes_on<D, S, N, V, W>()
    ensures { (machine : Machine S V) (host : Host N V W) (ask : Debugger D N V W) (n m : ℕ)
        (x : Session D S N V W) → GoesOn machine host ask n m x }
{}

/// What an outcome gives begins with what its run gives first.
#[tactic(auto, using(crate::proofs::run::RunLemmas::outcomes_begin_so))]
pub fn an_outcome_begins_with_what_its_run_gives<D, S, N, V, W>()
    ensures { (machine : Machine S V) (host : Host N V W) (ask : Debugger D N V W) (n : ℕ)
        (x : Session D S N V W) → OutcomesBeginSo machine host ask n x }
{}

/// What shows of a run in which nobody is asked is one: what it writes, how many acts it takes and
/// how it ends. All that it writes begins with what it writes first.
pub fn what_shows_of_a_run_is_one<S, N, V, W>()
    ensures outcome { (machine : Machine S V) (host : Host N V W) (n : ℕ) (block : BlockId)
        (names : N) (world : W) → ShowsOnce machine host n block names world }
    ensures front { (machine : Machine S V) (host : Host N V W) (n : ℕ) (block : BlockId)
        (names : N) (world : W) → WritesItFirst machine host n block names world }
{}

/// Each state to which a run comes has a next step or an ending, where the machine is stuck in none
/// of those in which it has its turn.
#[tactic(auto, using(crate::proofs::run::RunLemmas::never_halts))]
pub fn runs_never_halt_unfinished<D, S, N, V, W>()
    ensures { (machine : Machine S V) (host : Host N V W) (ask : Debugger D N V W) (n : ℕ)
        (x : Session D S N V W) → NeverStuck machine host ask n x → NeverHalts machine host ask n x }
{}

/// At an event that a debugger doesn't mind a run goes on, whatever the debugger would see.
#[tactic(auto, using(crate::proofs::run::RunLemmas::passes_unminded))]
pub fn a_debugger_need_not_see_what_it_does_not_mind<D, S, N, V, W>()
    ensures { (machine : Machine S V) (host : Host N V W) (ask : Debugger D N V W)
        (minds : D → Event V → Bool) (n : ℕ) (x : Session D S N V W)
        → PassesUnminded machine host ask minds n x }
{}

/// Where the newest block is hidden, and while a hook runs, no event is given.
#[tactic(auto, using(crate::proofs::run::RunLemmas::hides_blocks, crate::proofs::run::RunLemmas::hides_hooks))]
pub fn nothing_is_told_in_hidden_blocks_and_under_hooks<S, N, V, W>()
    ensures hidden { (machine : Machine S V) (host : Host N V W) (n : ℕ) (s : State S N V W)
        → HidesBlocks machine host n s }
    ensures hooks { (machine : Machine S V) (host : Host N V W) (n : ℕ) (s : State S N V W)
        → HidesHooks machine host n s }
{}

/// A yield closes the newest activation into its generator as it is, and however that generator goes
/// on, the same activation opens: with its names, its line and its trace function.
#[tactic(auto, using(crate::proofs::run::Suspension::suspends_as_it_is, crate::proofs::run::Suspension::resumes_as_it_was))]
pub fn a_suspended_activation_is_kept<S, N, V, W>()
    ensures suspends { (machine : Machine S V) (host : Host N V W) (n : ℕ) (s : State S N V W)
        → SuspendsAsItIs machine host n s }
    ensures resumes { (machine : Machine S V) (host : Host N V W) (s : State S N V W)
        → ResumesAsItWas machine host s }
{}

/// A debugger that lets each run go on, and does so from then on, leaves what is printed, the
/// events, the acts and the ending as they are without one, whatever it looks at and says.
pub fn a_debugger_that_only_looks_changes_nothing<D, S, N, V, W, P>()
    ensures { (machine : Machine S V) (host : Host N V W) (ask : Debugger D N V W)
        (debuggers : P → D) (n : ℕ) (x : Session D S N V W)
        → IsAsAlone machine host ask debuggers n x }
{}

/// Two machines that follow each other have the same runs: for each host, debugger and bound the
/// one comes to an outcome exactly where the other does.
#[tactic(auto, using(crate::proofs::run::Runs::have_the_same_runs))]
pub fn machines_that_follow_each_other_have_the_same_runs<D, S, R, N, V, W, P, Q, L>()
    ensures { (first : Machine S V) (second : Machine R V) (at : P → Related S R)
        (stands : Q → Related S R) (lands : L → Related S R)
        → Follows first second (By at) (By stands) (By lands)
        → (host : Host N V W) (ask : Debugger D N V W) (n : ℕ) (block : BlockId) (names : N)
        (world : W) (d : D) → HaveTheSameRuns first second host ask n block names world d }
{}

/// Their runs begin alike, whether or not they come to an outcome.
#[tactic(auto, using(crate::proofs::run::Fronts::begin_alike))]
pub fn machines_that_follow_each_other_begin_alike<D, S, R, N, V, W, P, Q, L>()
    ensures { (first : Machine S V) (second : Machine R V) (at : P → Related S R)
        (stands : Q → Related S R) (lands : L → Related S R)
        → Follows first second (By at) (By stands) (By lands)
        → (host : Host N V W) (ask : Debugger D N V W) (n : ℕ) (block : BlockId) (names : N)
        (world : W) (d : D) → BeginAlike first second host ask n block names world d }
{}

/// And they never halt unfinished.
pub fn machines_that_follow_each_other_never_halt<D, S, R, N, V, W, P, Q, L>()
    ensures first { (first : Machine S V) (second : Machine R V) (at : P → Related S R)
        (stands : Q → Related S R) (lands : L → Related S R)
        → Follows first second (By at) (By stands) (By lands)
        → (host : Host N V W) (ask : Debugger D N V W) (n : ℕ) (block : BlockId) (names : N)
        (world : W) (d : D) → NeverHalts first host ask n (session first block names world d) }
    ensures second { (first : Machine S V) (second : Machine R V) (at : P → Related S R)
        (stands : Q → Related S R) (lands : L → Related S R)
        → Follows first second (By at) (By stands) (By lands)
        → (host : Host N V W) (ask : Debugger D N V W) (n : ℕ) (block : BlockId) (names : N)
        (world : W) (d : D) → NeverHalts second host ask n (session second block names world d) }
{}

/// Where a machine stays among states in each of which it has a turn, whatever is replied and wherever
/// is jumped, its runs never halt unfinished: for each host, debugger and bound.
pub fn a_machine_that_stays_among_its_states_never_halts<D, S, N, V, W, P, L>()
    ensures { (machine : Machine S V) (states : P → Standing S) (landings : L → Standing S)
        → Stays machine (Among states) (Among landings)
        → (host : Host N V W) (ask : Debugger D N V W) (n : ℕ) (block : BlockId) (names : N)
        (world : W) (d : D) → NeverHalts machine host ask n (session machine block names world d) }
{}

/// So a machine that never moves silently and is never stuck has the runs of the one that moves
/// silently before each of its turns.
#[tactic(auto, using(crate::proofs::run::Slowly::runs_slowly))]
pub fn silent_moves_change_nothing<D, S, N, V, W>()
    ensures { (machine : Machine S V) → NeverMoves machine
        → (host : Host N V W) (ask : Debugger D N V W) (n : ℕ) (block : BlockId) (names : N)
        (world : W) (d : D)
        → HaveTheSameRuns machine (slowly machine) host ask n block names world d }
{}

/// Where two machines follow each other for the blocks of a script, and a third one runs those of
/// the prelude for both, the two so made have the same runs.
pub fn hidden_blocks_may_have_a_machine_of_their_own<D, H, S, R, N, V, W, P, Q, L>()
    ensures { (prelude : Machine H V) → NeverMoves prelude
        → (first : Machine S V) (second : Machine R V) (at : P → Related S R)
        (stands : Q → Related S R) (lands : L → Related S R)
        → Follows first second (By at) (By stands) (By lands)
        → (host : Host N V W) (ask : Debugger D N V W) (n : ℕ) (block : BlockId) (names : N)
        (world : W) (d : D)
        → HaveTheSameRuns (both_sides prelude first) (both_sides prelude second) host ask n block names world d }
{}

/// Control of a script's tree is a machine that never moves silently and is never stuck.
#[tactic(auto, using(crate::proofs::run::SourceMoves::control_never_moves))]
pub fn control_is_a_machine_that_never_moves<V>()
    ensures { (source : Source V) → NeverMoves (machine source) }
{}
