//! What a read of a database sees: windows, views, scans, names, and what kept lists of datoms
//! stand for, as definitions in `specs/`. The functions here are laws about them, and examples:
//! each has an empty body, and its contract is the law.
#![tactic(auto)]

mod examples;
mod laws;
mod rows;

pub use examples::{
    filters_come_after_the_window, names_are_found_in_the_view, points_in_time, scans_of_ages,
    scans_of_emails,
};
pub use laws::{
    a_scan_is_one_list, as_of_is_the_database_then, filters_only_hide, since_only_hides,
    what_is_seen_was_said, windows_compose,
};
pub use rows::{
    as_of_an_instant, filters_one_after_another, since_begins_behind_its_point,
    transactions_of_the_log,
};
