//! Laws of what the machine does, each the contract of a function that does nothing.

ghost use Rattle.std.specs.Prelude.{◌≡◌, ◌+◌, ◌<◌, ◌≤◌, ℕ, List, [], ◌∷◌, None, Option, Some};
ghost use Rattle.std.specs.Prelude.{Bool, codes, length};
ghost use Rattle.pt_base.specs.declared.numbers.BlockId.{BlockId};
ghost use Rattle.pt_base.specs.declared.numbers.Line.{Line};
ghost use Rattle.pt_base.specs.declared.numbers.ObjId.{ObjId};
ghost use Rattle.pt_base.specs.declared.numbers.Pc.{Pc};
ghost use Rattle.pt_base.specs.declared.what.What.TheVariants.{Feature, Heap};
ghost use Rattle.pt_base.specs.declared.what.What.{What};
ghost use Rattle.pt_bind.specs.declared.arguments.Locals.{Locals};
ghost use Rattle.pt_frames.specs.declared.activation.Activation.{Activation};
ghost use Rattle.pt_frames.specs.declared.purpose.Purpose.TheVariants as purpose;
ghost use Rattle.pt_frames.specs.declared.purpose.Purpose.{Purpose};
ghost use Rattle.pt_heap.specs.declared.completion.Completion.TheVariants as completion;
ghost use Rattle.pt_heap.specs.declared.completion.Completion.{Completion};
ghost use Rattle.pt_heap.specs.declared.object.Object.{Object};
ghost use Rattle.pt_heap.specs.declared.value.Value.{Value};
ghost use Rattle.pt_code_facts.specs.sem_rows.heap_rows.Told.{block_id};
ghost use Rattle.pt_code_facts.specs.sem_rows.declared.heap_rows.progress.Progress.TheVariants as progress;
ghost use Rattle.pt_code_facts.specs.sem_rows.pt_host.Calls.{arguments_of};
ghost use Rattle.pt_heap.specs.declared.value.Value.TheVariants.{Obj};
ghost use Rattle.pt_code_facts.specs.sem_rows.pt_host.Classes.{base_of};
ghost use Rattle.pt_code_facts.specs.sem_rows.pt_host.declared.classes.Base.TheVariants as bases;
ghost use Rattle.pt_code_facts.specs.sem_rows.pt_host.Errors.{arise_while, error, error_saying, object_place};
ghost use Rattle.pt_code_facts.specs.sem_rows.pt_host.World.{IsAllotted, allot};
ghost use Rattle.pt_code_facts.specs.sem_rows.pt_host.declared.places.TheConstants.{RECURSION_ERROR, TYPE_ERROR};
ghost use Rattle.pt_machine_state.specs.Applies.{Applied, Closes, IsGiven, Takes, class_of};
ghost use Rattle.pt_machine_state.specs.Blocks.{block_at};
ghost use Rattle.pt_machine_state.specs.Changes.{behind_block, end_in, events_of, given_back};
ghost use Rattle.pt_machine_state.specs.Changes.{gone_to, landed};
ghost use Rattle.pt_machine_state.specs.Changes.{left_at, left_events, left_place, opened};
ghost use Rattle.pt_machine_state.specs.Changes.{with_class};
ghost use Rattle.pt_machine_state.specs.Changes.{raise_events, raised_at, suspended, visible_line};
ghost use Rattle.pt_machine_state.specs.Laws.{MarkedAgain, MarkedStrides, UnmarkedAgain};
ghost use Rattle.pt_machine_state.specs.Laws.{UnmarkedStrides};
ghost use Rattle.pt_machine_state.specs.Views.{active_of, block_of};
ghost use Rattle.pt_machine_state.specs.Writing.{Adds, print_piece};
ghost use Rattle.pt_machine_state.specs.declared.blocks.BlockCode.{BlockCode};
ghost use Rattle.pt_machine_state.specs.declared.blocks.Blocks.{Blocks};
ghost use Rattle.pt_machine_state.specs.declared.machine.Machine.{Machine};
ghost use Rattle.pt_machine_state.specs.declared.machine.MachineEnd.TheVariants as ending;
ghost use Rattle.pt_machine_state.specs.declared.machine.Standing.TheVariants as standing;
ghost use Rattle.pt_machine_state.specs.declared.machine.Stride.TheVariants as stride;
ghost use Rattle.pt_machine_state.specs.declared.machine.Stride.{Stride};
ghost use Rattle.pt_machine_state.specs.declared.writes.Writes.{Writes};
ghost use Rattle.pt_places.specs.PlaceTable.{entry};
ghost use Rattle.sem_run.specs.run.State.{most_activations};
ghost use Rattle.pt_places.specs.declared.places.Place.{Place};

/// The machine does what an instruction comes to as a run does: it goes to a place, a completion
/// lands, a raise that was held goes on, a text is printed. Where slots lack what is taken the run
/// is stuck, whatever the machine does.
#[tactic(auto, using(crate::proofs::ApplyLemmas::applied_next, crate::proofs::ApplyLemmas::applied_goto, crate::proofs::ApplyLemmas::applied_leaves, crate::proofs::ApplyLemmas::applied_print, crate::proofs::ApplyLemmas::applied_reraises, crate::proofs::ApplyLemmas::applied_lacks))]
pub fn the_machine_goes_where_instructions_lead()
    ensures next { (blocks : Blocks) (block : BlockCode) (next : Pc) (m : Machine) (w : Writes)
        → Applied blocks block next progress.Next stride.Goes m w (gone_to next m) w }
    ensures goto { (blocks : Blocks) (block : BlockCode) (next : Pc) (m : Machine) (w : Writes)
        (pc : Pc) → Applied blocks block next (progress.Goto pc) stride.Goes m w (gone_to pc m) w }
    ensures leaves { (blocks : Blocks) (block : BlockCode) (next : Pc) (m : Machine) (w : Writes)
        (how : Completion) → Applied blocks block next (progress.Leaves how) stride.Goes m w
        (left_place block next how m) w }
    ensures prints { (blocks : Blocks) (block : BlockCode) (next : Pc) (m : Machine) (w : Writes)
        (t : List ℕ) (w1 : Writes) → Adds w w1 (print_piece t ∷ [])
        → Applied blocks block next (progress.Print t) stride.Goes m w (gone_to next m) w1 }
    ensures reraises { (blocks : Blocks) (block : BlockCode) (next : Pc) (m : Machine) (w : Writes)
        (v : Value) → Applied blocks block next (progress.Reraises v) stride.Goes m w
        (landed block (completion.Raise v) m) w }
    ensures lacks { (blocks : Blocks) (block : BlockCode) (next : Pc) (m : Machine) (w : Writes)
        (r : Stride) (new : Machine) (w1 : Writes)
        → Applied blocks block next progress.Lacks r m w new w1 }
{}

/// The machine does with exceptions that instructions make what a run does, and where there is no
/// room for one it leaves the profile, as an instruction may do.
#[tactic(auto, using(crate::proofs::FailLemmas::applied_raises, crate::proofs::FailLemmas::applied_raises_again, crate::proofs::FailLemmas::applied_fails, crate::proofs::FailLemmas::applied_fails_saying, crate::proofs::FailLemmas::fails_outside, crate::proofs::FailLemmas::fails_saying_outside, crate::proofs::FailLemmas::applied_outside))]
pub fn exceptions_arise_as_in_a_run()
    ensures fails { (blocks : Blocks) (block : BlockCode) (next : Pc) (m : Machine) (w : Writes)
        (class : ObjId) (arg : Option Value) (v : Value) (h : List Object) (w1 : Writes)
        → IsAllotted (allot (error class (arguments_of arg) None (active_of m)) m.heap) (Some v) h
        → Adds w w1 (raise_events v block (record m { heap = h }))
        → Applied blocks block next (progress.Fails class arg) stride.Goes m w
        (raised_at block v (record m { heap = h })) w1 }
    ensures fails_saying { (blocks : Blocks) (block : BlockCode) (next : Pc) (m : Machine)
        (w : Writes) (class : ObjId) (text : List ℕ) (v : Value) (h : List Object) (w1 : Writes)
        → IsAllotted (error_saying class text None (active_of m) m.heap) (Some v) h
        → Adds w w1 (raise_events v block (record m { heap = h }))
        → Applied blocks block next (progress.FailsSaying class text) stride.Goes m w
        (raised_at block v (record m { heap = h })) w1 }
    ensures raises { (blocks : Blocks) (block : BlockCode) (next : Pc) (m : Machine) (w : Writes)
        (id : ObjId) (w1 : Writes)
        → Adds w w1 (raise_events (Obj id) block
        (record m { heap = arise_while (object_place (active_of m)) id m.heap }))
        → Applied blocks block next (progress.Raises id) stride.Goes m w
        (raised_at block (Obj id)
        (record m { heap = arise_while (object_place (active_of m)) id m.heap })) w1 }
    ensures again { (blocks : Blocks) (block : BlockCode) (next : Pc) (m : Machine) (w : Writes)
        (v : Value) (w1 : Writes) → active_of m ≡ Some v → Adds w w1 (raise_events v block m)
        → Applied blocks block next progress.RaisesAgain stride.Goes m w (raised_at block v m)
        w1 }
    ensures full { (blocks : Blocks) (block : BlockCode) (next : Pc) (m : Machine) (w : Writes)
        (new : Machine) → new.units ≡ m.units → (line : Line) → line.0 ≡ visible_line blocks m
        → (class : ObjId) (arg : Option Value) (h : List Object)
        → IsAllotted (allot (error class (arguments_of arg) None (active_of m)) m.heap) None h
        → Applied blocks block next (progress.Fails class arg)
        (stride.Ends (ending.Outside Heap line)) m w new w }
    ensures full_saying { (blocks : Blocks) (block : BlockCode) (next : Pc) (m : Machine)
        (w : Writes) (new : Machine) → new.units ≡ m.units → (line : Line)
        → line.0 ≡ visible_line blocks m → (class : ObjId) (text : List ℕ) (h : List Object)
        → IsAllotted (error_saying class text None (active_of m) m.heap) None h
        → Applied blocks block next (progress.FailsSaying class text)
        (stride.Ends (ending.Outside Heap line)) m w new w }
    ensures outside { (blocks : Blocks) (block : BlockCode) (next : Pc) (m : Machine) (w : Writes)
        (new : Machine) → new.units ≡ m.units → (line : Line) → line.0 ≡ visible_line blocks m
        → (what : What) → Applied blocks block next (progress.Outside what)
        (stride.Ends (ending.Outside what line)) m w new w }
{}

/// A block opens above the newest activation as in a run, and in place of one too many there is a
/// RecursionError, by which the block is left, or no room for one.
#[tactic(auto, using(crate::proofs::CallLemmas::applied_calls, crate::proofs::CallLemmas::fails_to_open, crate::proofs::CallLemmas::no_room_to_fail))]
pub fn blocks_open_as_in_a_run()
    ensures opens { (blocks : Blocks) (block : BlockCode) (next : Pc) (m : Machine) (w : Writes)
        (b : BlockId) (hidden : Bool) (ls : Locals) (why : Purpose) (w1 : Writes)
        → length m.frames.activations + 1 < most_activations
        → Adds w w1 (events_of (codes "call") [] (block_at blocks (block_id b hidden))
        (opened (block_at blocks (block_id b hidden)).iterates b hidden ls why m))
        → Applied blocks block next (progress.Calls b hidden ls why) stride.Goes m w
        (opened (block_at blocks (block_id b hidden)).iterates b hidden ls why m) w1 }
    ensures too_deep { (blocks : Blocks) (block : BlockCode) (next : Pc) (m : Machine)
        (w : Writes) (b : BlockId) (hidden : Bool) (ls : Locals) (why : Purpose) (v : Value)
        (h : List Object) (w1 : Writes) → most_activations ≤ length m.frames.activations + 1
        → IsAllotted (error_saying RECURSION_ERROR (codes "too many activations") None (active_of m)
        m.heap) (Some v) h
        → Adds w w1 (left_events v block (end_in why v h)
        (behind_block why (record m { heap = h })))
        → Applied blocks block next (progress.Calls b hidden ls why) stride.Goes m w
        (left_at block v (end_in why v h) (behind_block why (record m { heap = h }))) w1 }
    ensures no_room { (blocks : Blocks) (block : BlockCode) (next : Pc) (m : Machine) (w : Writes)
        (b : BlockId) (hidden : Bool) (ls : Locals) (why : Purpose) (h : List Object)
        (new : Machine) (line : Line) → most_activations ≤ length m.frames.activations + 1
        → IsAllotted (error_saying RECURSION_ERROR (codes "too many activations") None (active_of m)
        m.heap) None h → new.units ≡ m.units → line.0 ≡ visible_line blocks m
        → Applied blocks block next (progress.Calls b hidden ls why)
        (stride.Ends (ending.Outside Heap line)) m w new w }
{}

/// A block ends as in a run: what it gave is taken for its purpose behind the call of the
/// activation that waits for it, or an exception lands there, unless it is the end of what gives
/// items, and the end of the module is that of the run.
#[tactic(auto, using(crate::proofs::CloseLemmas::module_returns, crate::proofs::CloseLemmas::module_raises, crate::proofs::CloseLemmas::block_returns, crate::proofs::CloseLemmas::block_raises))]
pub fn blocks_end_as_in_a_run()
    ensures module_returns { (blocks : Blocks) (m : Machine) (w w1 : Writes)
        → m.frames.activations ≡ []
        → Adds w w1 (events_of (codes "return") [] (block_at blocks (block_of m.here)) m)
        → (v : Value) → m.standing ≡ standing.Returns v
        → Closes blocks (stride.Ends ending.Done) m w m w1 }
    ensures module_raises { (blocks : Blocks) (m : Machine) (w w1 : Writes)
        → m.frames.activations ≡ []
        → Adds w w1 (events_of (codes "return") [] (block_at blocks (block_of m.here)) m)
        → (v : Value) (line : Line) → m.standing ≡ standing.Raises v
        → line.0 ≡ visible_line blocks m
        → Closes blocks (stride.Ends (ending.Left v line)) m w m w1 }
    ensures returns { (blocks : Blocks) (m : Machine) (a : Activation) (why : Purpose) (p : Place)
        (w w0 w1 : Writes) → m.standing ≡ standing.AtPlace
        → entry (block_at blocks (block_of m.here)).places m.here.pc.0 ≡ Some p → (v : Value)
        (r : Stride) (new : Machine)
        → Adds w w0 (events_of (codes "return") [] (block_at blocks (block_of a))
        (suspended a (standing.Returns v) why m))
        → Takes blocks (block_at blocks (block_of m.here)) p.next a why v r m w0 new w1
        → Closes blocks r (suspended a (standing.Returns v) why m) w new w1 }
    ensures raises { (blocks : Blocks) (m : Machine) (a : Activation) (why : Purpose) (p : Place)
        (w w0 w1 : Writes) → m.standing ≡ standing.AtPlace
        → entry (block_at blocks (block_of m.here)).places m.here.pc.0 ≡ Some p → (v : Value)
        → Adds w w0 (events_of (codes "return") [] (block_at blocks (block_of a))
        (suspended a (standing.Raises v) why m))
        → Adds w0 w1 (left_events v (block_at blocks (block_of m.here)) (end_in why v m.heap)
        (behind_block why m))
        → Closes blocks stride.Goes (suspended a (standing.Raises v) why m) w
        (left_at (block_at blocks (block_of m.here)) v (end_in why v m.heap)
        (behind_block why m)) w1 }
{}

/// What a block gave is taken as in a run: where it gives a value that is the one of the call, or
/// the instance that `__init__` was called for, or a class that is made of the block's names
/// (Language Reference 3.3.1, 8.8).
#[tactic(auto, using(crate::proofs::TakeLemmas::takes_given, crate::proofs::TakeLemmas::takes_instance, crate::proofs::TakeLemmas::takes_class, crate::proofs::TakeLemmas::takes_full, crate::proofs::TakeLemmas::takes_no_base, crate::proofs::TakeLemmas::takes_unavailable))]
pub fn results_are_taken_as_in_a_run()
    ensures given { (blocks : Blocks) (block : BlockCode) (next : Pc) (m : Machine) (w : Writes)
        (a : Activation) (why : Purpose) → IsGiven why → (v : Value)
        → Takes blocks block next a why v stride.Goes m w (given_back next v m) w }
    ensures initialized { (blocks : Blocks) (block : BlockCode) (next : Pc) (m : Machine)
        (w : Writes) (a : Activation) (new v : Value)
        → Takes blocks block next a (purpose.Init new) v stride.Goes m w (given_back next new m)
        w }
    ensures class { (blocks : Blocks) (block : BlockCode) (next : Pc) (m : Machine) (w : Writes)
        (a : Activation) (class : Value) (cell : Option ℕ) (b : ObjId)
        → base_of m.heap class ≡ bases.On b → (v : Value) (h : List Object)
        → IsAllotted (allot (class_of blocks a b) m.heap) (Some v) h
        → (u : Value) → Takes blocks block next a (purpose.Class class cell) u stride.Goes m w
        (given_back next v (with_class cell v (record m { heap = h }))) w }
    ensures full { (blocks : Blocks) (block : BlockCode) (next : Pc) (m : Machine) (w : Writes)
        (a : Activation) (class : Value) (cell : Option ℕ) (new : Machine)
        → new.units ≡ m.units → (line : Line) → line.0 ≡ visible_line blocks m
        → (b : ObjId) → base_of m.heap class ≡ bases.On b → (h : List Object)
        → IsAllotted (allot (class_of blocks a b) m.heap) None h
        → (u : Value) → Takes blocks block next a (purpose.Class class cell) u
        (stride.Ends (ending.Outside Heap line)) m w new w }
    ensures no_base { (blocks : Blocks) (block : BlockCode) (next : Pc) (m : Machine) (w : Writes)
        (a : Activation) (class : Value) (cell : Option ℕ)
        → base_of m.heap class ≡ bases.NoBase → (v : Value) (h : List Object) (w1 : Writes)
        → IsAllotted (error_saying TYPE_ERROR (codes "bad argument") None (active_of m) m.heap)
        (Some v) h → Adds w w1 (raise_events v block (record m { heap = h }))
        → (u : Value) → Takes blocks block next a (purpose.Class class cell) u stride.Goes m w
        (raised_at block v (record m { heap = h })) w1 }
    ensures unavailable { (blocks : Blocks) (block : BlockCode) (next : Pc) (m : Machine)
        (w : Writes) (a : Activation) (class : Value) (cell : Option ℕ) (new : Machine)
        → new.units ≡ m.units → (line : Line) → line.0 ≡ visible_line blocks m
        → base_of m.heap class ≡ bases.Unavailable
        → (u : Value) → Takes blocks block next a (purpose.Class class cell) u
        (stride.Ends (ending.Outside Feature line)) m w new w }
{}

/// At an instruction the machine does a stride of a run over code where it does what the row of the
/// instruction comes to: with a mark the act takes its unit, and its line is told before it. At a
/// `raise` alone it does one where the exception that is active lands again, of which nothing is
/// told, or a RuntimeError arises where none is (Language Reference 7.8).
#[tactic(auto, using(crate::proofs::StrideLemmas::unmarked_done, crate::proofs::StrideLemmas::marked_done, crate::proofs::AgainLemmas::unmarked_again, crate::proofs::AgainLemmas::marked_again))]
pub fn instructions_are_strides()
    ensures unmarked { UnmarkedStrides }
    ensures marked { MarkedStrides }
    ensures unmarked_again { UnmarkedAgain }
    ensures marked_again { MarkedAgain }
{}
