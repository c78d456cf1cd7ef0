//! Control by the syntax: which act of a script comes next, what it asks for, and how each answer,
//! raise or completion goes on.

mod laws;
mod rows;

pub use laws::{
    a_permitted_jump_lands, acts_stand_in_the_nests_of_the_tree, an_act_comes_next,
    completions_go_the_ways_of_the_table, each_mark_behind_a_jump_is_its_row, each_mark_is_its_row,
    each_row_is_met, no_two_parts_are_the_same, statements_are_reached, turns_are_never_stuck,
};
pub use rows::{
    a_bare_raise_is_followed, a_jump_to_no_act_is_followed, a_part_without_acts_is_not_entered,
    a_raise_at_a_match_is_followed, a_raise_that_goes_on_is_followed, jumps_are_followed,
    lines_of_calls_are_followed, scripts_are_followed,
};
