//! A run, said once: activations, generators, events, hooks and a debugger's answers, over any
//! machine and any values. It runs nothing.

mod laws;
mod rows;

pub use laws::{
    a_debugger_need_not_see_what_it_does_not_mind, a_debugger_that_only_looks_changes_nothing,
    a_greater_bound_goes_on, a_machine_that_stays_among_its_states_never_halts,
    a_run_has_one_outcome, a_run_has_parts, a_suspended_activation_is_kept,
    an_outcome_begins_with_what_its_run_gives, control_is_a_machine_that_never_moves,
    hidden_blocks_may_have_a_machine_of_their_own, machines_that_follow_each_other_begin_alike,
    machines_that_follow_each_other_have_the_same_runs, machines_that_follow_each_other_never_halt,
    nothing_is_told_in_hidden_blocks_and_under_hooks, runs_never_halt_unfinished,
    silent_moves_change_nothing, what_shows_of_a_run_is_one,
};
pub use rows::{
    a_call_that_is_too_deep_is_followed, a_callee_that_raises_is_followed,
    a_debuggers_jumps_are_followed, a_hook_that_runs_is_followed,
    a_raise_alone_in_a_callee_is_followed, bounds_are_followed, hooks_in_generators_are_followed,
    jumps_drop_the_rest_of_an_event, line_events_are_followed, the_most_activations_are_followed,
    the_order_at_an_event_is_followed, tools_that_raise_are_followed,
};
