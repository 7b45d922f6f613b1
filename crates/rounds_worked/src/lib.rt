//! The headline's claims about the marks and the rounds of a run, tried field by field.
#![tactic(auto)]

mod laws;

pub use laws::{
    an_order_is_not_left_for_two_rounds, each_clock_follows, each_field_of_a_rounds_run_is_needed,
    each_field_of_marks_is_needed, each_field_of_the_operators_round_is_needed,
    fields_of_a_far_sides_round_are_needed, fields_of_a_routers_round_are_needed,
    groups_begin_behind_their_marks, marks_name_what_their_worlds_are, one_answer_follows,
    small_rounds_are_real, small_runs_have_their_marks, some_rounds_are_never_real,
};
