//! What may happen to a database that many sessions share, as definitions in `specs/`: a small
//! machine of worlds and events. The functions here are laws about it, and examples: each has an
//! empty body, and its contract is the law.
#![tactic(auto)]

mod examples;
mod growth;
mod runs;
mod sound;

pub use examples::{
    a_failed_append_and_a_crash, a_new_database_is_a_beginning, mail_between_two_sessions,
    merges_step_by_step, two_sessions_record_one_transaction_each,
};
pub use growth::{
    a_crash_loses_no_commit, a_history_only_grows, a_merge_changes_no_view, snapshots_never_fall,
    snapshots_stay_what_they_are,
};
pub use runs::{
    a_failed_append_ends_the_log, a_run_goes_on, each_event_but_a_crash_makes_one_world,
};
pub use sound::{
    each_t_has_one_author, histories_stay_lawful, snapshots_show_their_own_commits,
    trees_are_of_no_more_than_there_is, worlds_stay_sound,
};
