//! What a script is, and how each form of a session is answered, as definitions in `specs/`: its commands, its replies,
//! what a read sees, and the talk of a session over a history that it shares with others. The
//! functions here are laws about them, and examples: each has an empty body, and its contract is
//! the law.
#![tactic(auto)]

mod answers;
mod commands;
mod examples;
mod reads;
mod replies;
mod scripts;
mod talks;

pub use answers::{
    ranges_of_tuples, refusals_of_reads, transactions_are_tried, views_of_a_session,
};
pub use commands::{
    forms_that_are_no_command, looks_in_forms, transactions_that_may_be_tried, words_of_commands,
};
pub use examples::{a_talk, a_talk_over_a_stopped_log, datoms_that_are_read};
pub use reads::{
    a_read_has_one_answer, looks_change_nothing, reads_are_computed_by_tests,
    reads_keep_their_place,
};
pub use replies::{datoms_as_forms, lines_of_replies, transactions_as_forms};
pub use scripts::{a_script_has_one_reading, empty_script};
pub use talks::{
    Surroundings, a_longer_history_keeps_a_talk, a_session_is_notified_once,
    a_talk_ends_with_its_last_form, a_talk_goes_on, a_talk_rests_on_what_was_seen,
    commits_strictly_rise, one_line_at_a_place,
};
