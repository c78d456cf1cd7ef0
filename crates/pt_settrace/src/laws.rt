//! Laws of trace functions, each the contract of a function that does nothing.
ghost use Rattle.std.specs.Prelude.{ℕ};
ghost use Rattle.pt_heap.specs.declared.value.Value.{Value};
ghost use Rattle.sem_run.specs.run.Host.{Frame};
ghost use Rattle.pt_events.specs.declared.EventKind.{EventKind};
ghost use Rattle.pt_settrace.specs.declared.frames.FrameTracing.{FrameTracing};
ghost use Rattle.pt_settrace.specs.Tracing.{Tracing};
ghost use Rattle.pt_settrace.specs.Laws.{AsksAsTold, IsDueInRun, KeepsInFrames};

/// The function that is due is the one that is due in a run, in each frame whose trace function and
/// lines are those that are kept under its number.
pub fn the_due_function_is_that_of_a_run<N>()
    ensures { (kind : EventKind) (h : Tracing) (f : Frame N Value) → IsDueInRun kind h f }
{}

/// While there is no global function none is asked, a call asks the global one, and whatever else is
/// told asks that of its frame, but lines of a frame that doesn't trace them.
pub fn who_is_asked_follows_the_rules()
    ensures { (kind : EventKind) (frame : ℕ) (h : Tracing) → AsksAsTold kind frame h }
{}

/// What is kept of a frame is found under its number, until something else is or it is forgotten, and
/// that of other frames stays.
pub fn a_frame_keeps_what_it_was_given()
    ensures { (frame : ℕ) (t : FrameTracing) (h : Tracing) → KeepsInFrames frame t h }
{}
