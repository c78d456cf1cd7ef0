//! Scripts followed event by event, each the contract of a function that does nothing.

ghost use Rattle.std.specs.Prelude.{◌≡◌, [], ◌∷◌, true, false, replicate};
ghost use Rattle.sem_control.specs.control.Samples.{generating, jumping, nested, on_one_line};
ghost use Rattle.sem_run.specs.run.Samples.{bad_jumps, catching, catching_answers, catching_events, good_jump, jump_at_5, jump_at_5_rows, nested_call, one_item, order_at_5, pass_alone, raise_at_handler, raise_at_handler_cues, raise_at_handler_rows, raise_held, raise_held_cues, raise_held_rows, raising, raising_alone, raising_alone_cues, raising_alone_events, raising_call, raising_events, refused_at_1, refused_at_6, resuming, resuming_answers, resuming_rows, running_hook, running_hook_rows, sixty_moves, stop_at_5, throwing, throwing_cues, throwing_early, throwing_early_cues, throwing_rows, too_deep_events, two_items, two_rounds, with_hooks, with_hooks_answers, with_room_events, writing, writing_badly, writing_badly_rows, writing_cues, writing_rows};
ghost use Rattle.sem_run.specs.run.Cues.{behind_event, ends_done, ends_spent, event_rows, exceptions_told, from_event, lines_of, lines_with, recursion_error, rows_of_run, trace_of};
ghost use Rattle.sem_run.specs.run.State.{Opener, State, is_full};

/// The line events of a generator in a `for`, of one to which something is thrown before it starts,
/// and of nested `finally` parts, with their callers.
pub fn line_events_are_followed()
    ensures generating { lines_of generating two_items ≡ 1 ∷ 4 ∷ 2 ∷ 5 ∷ 4 ∷ 3 ∷ 5 ∷ 4 ∷ [] }
    ensures on_one_line { lines_of on_one_line two_rounds ≡ 1 ∷ 2 ∷ 2 ∷ 2 ∷ [] }
    ensures finished { lines_of throwing_early throwing_early_cues
        ≡ 1 ∷ 3 ∷ 4 ∷ 5 ∷ 6 ∷ 7 ∷ 8 ∷ [] }
    ensures nested { lines_of nested nested_call ≡ 1 ∷ 11 ∷ 2 ∷ 3 ∷ 4 ∷ 5 ∷ 7 ∷ 9 ∷ 10 ∷ [] }
{}

/// The events of a callee that raises, and of its caller.
pub fn a_callee_that_raises_is_followed()
    ensures { event_rows (trace_of raising 1000 raising_call []).outputs ≡ raising_events }
{}

/// A `raise` alone in a callee, while an exception is active in its caller's handler: that goes on.
/// It does not arise in the callee, and it arrives in the caller.
pub fn a_raise_alone_in_a_callee_is_followed()
    ensures { from_event 6 7 (event_rows (trace_of raising_alone 1000 raising_alone_cues []).outputs)
        ≡ raising_alone_events }
{}

/// A tool that raises where an exception goes on behind its `finally` part, in a handler of another:
/// the other is active there. One that raises where a handler takes an exception: the handler isn't
/// entered, and its name stays as it is.
pub fn tools_that_raise_are_followed()
    ensures goes_on { from_event 13 10 (rows_of_run raise_held raise_held_cues []) ≡ raise_held_rows }
    ensures taken { from_event 14 6 (rows_of_run raise_at_handler raise_at_handler_cues [])
        ≡ raise_at_handler_rows }
{}

/// What is told at one event, in order: the log, the debugger, two tools, and the trace function.
pub fn the_order_at_an_event_is_followed()
    ensures { behind_event 9 5 (rows_of_run with_hooks with_hooks_answers stop_at_5) ≡ order_at_5 }
{}

/// A trace function that raises in a generator whose body catches it: the generator goes on, and is
/// told of no more. Then one that raises while an exception waits that was thrown to the generator,
/// and one that has the generator go on under it, and gets an error.
pub fn hooks_in_generators_are_followed()
    ensures catches { from_event 0 2
        (event_rows (trace_of catching 1000 catching_answers []).outputs) ≡ catching_events }
    ensures throws { from_event 4 4 (rows_of_run throwing throwing_cues []) ≡ throwing_rows }
    ensures resumes { from_event 9 2 (rows_of_run resuming resuming_answers []) ≡ resuming_rows }
{}

/// A trace function that is a block of the script: its acts take units, and it is told of nothing
/// that happens in itself.
pub fn a_hook_that_runs_is_followed()
    ensures told { from_event 0 4 (rows_of_run with_hooks running_hook []) ≡ running_hook_rows }
    ensures units { (trace_of with_hooks 15 running_hook []).end ≡ ends_spent }
    ensures enough { (trace_of with_hooks 16 running_hook []).end ≡ ends_done }
{}

/// A debugger's jumps: into a loop and out of a `finally` part they are refused, and the debugger is
/// asked again; out of a loop it is made, and the line that follows is told.
pub fn a_debuggers_jumps_are_followed()
    ensures into { behind_event 9 1 (rows_of_run jumping one_item bad_jumps) ≡ refused_at_1 }
    ensures out_of { behind_event 9 6 (rows_of_run jumping one_item bad_jumps) ≡ refused_at_6 }
    ensures refused { lines_with jumping one_item bad_jumps ≡ 1 ∷ 2 ∷ 1 ∷ 3 ∷ 4 ∷ 6 ∷ 7 ∷ [] }
    ensures made { lines_with jumping one_item good_jump ≡ 1 ∷ 2 ∷ 7 ∷ [] }
    ensures unit { (trace_of jumping 11 one_item good_jump).end ≡ ends_spent }
    ensures units { (trace_of jumping 12 one_item good_jump).end ≡ ends_done }
{}

/// A debugger's jump drops the rest of the event. A trace function's write to `f_lineno` of the frame
/// that it is asked for is a jump too; one to another frame is refused.
pub fn jumps_drop_the_rest_of_an_event()
    ensures debugger { from_event 9 5 (rows_of_run with_hooks with_hooks_answers jump_at_5)
        ≡ jump_at_5_rows }
    ensures writes { from_event 9 4 (rows_of_run writing writing_cues []) ≡ writing_rows }
    ensures badly { from_event 9 4 (rows_of_run writing writing_badly []) ≡ writing_badly_rows }
{}

/// `pass` under a bound of no acts, and of one.
pub fn bounds_are_followed()
    ensures none { (trace_of pass_alone 0 [] []).end ≡ ends_spent }
    ensures one { (trace_of pass_alone 1 [] []).end ≡ ends_done }
{}

/// A thousand activations may be open.
pub fn the_most_activations_are_followed<S, N, V, W>()
    ensures room { (s : State S N V W) (o : Opener S N V W)
        → is_full (record s { openers = replicate 998 o }) ≡ false }
    ensures full { (s : State S N V W) (o : Opener S N V W)
        → is_full (record s { openers = replicate 999 o }) ≡ true }
{}

/// A function that calls itself: where 998 activations wait it runs once more, and where 999 wait the
/// call is a RecursionError, which is told.
pub fn a_call_that_is_too_deep_is_followed()
    ensures room { event_rows (sixty_moves 998).outputs ≡ with_room_events }
    ensures refused { event_rows (sixty_moves 999).outputs ≡ too_deep_events }
    ensures error { exceptions_told (sixty_moves 999).outputs ≡ recursion_error ∷ [] }
{}
